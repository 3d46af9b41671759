// Demand 3 on the calls: "from the points lent to the q returned".
ghost use Rattle.promises.specs.Calls.{Answered};
ghost use Rattle.promises.specs.AlterationsLent.{alterations_lent};

use crate::{Answers, lent};
use build::Sheet;
use reading::Dash;
use templates::Domain;

// Builds an image in the caller's buffer, makes any number of changes and commits, and
// takes a reading, whatever each call answers: a refused one leaves the buffer
// unchanged. There are as many alterations as fields. At the index of each are its
// kind, its writer's level (0, 1, 2), its field and its sort. By the sort there is a
// whole number (0), a Single (1), missing (2), or for a commit (3) the present code and
// the new one. Each slice is a parameter, since the statement `Answered` names each.
pub fn points_to_reading(
    kind: u8,
    image: &mut [u8],
    sheet: Sheet,
    text: &[u8],
    domain: Domain,
    points: &[i64],
    kinds: &[u8],
    levels: &[u8],
    fields: &[u64],
    tags: &[u8],
    wholes: &[i64],
    singles: &[f32],
    presents: &[u64],
    news: &[u64],
    reading_kind: u8,
    input: i64,
    dash: Dash,
) -> Answers
    ensures { Answered kind image.old sheet text.now domain points.now
        (alterations_lent kinds.now levels.now fields.now tags.now wholes.now singles.now presents.now news.now)
        reading_kind input dash image.new result }
{
    let built = build::build(kind, image, sheet, text, domain, points);
    let mut i = 0;
    while i < fields.len() {
        let target = lent::target_at(kinds, levels, fields, i);
        let content = lent::content_at(tags, wholes, singles, presents, news, i);
        lent::alter(image, target, content);
        i += 1;
    }
    let reading = reading::take_reading(reading_kind, image, input, dash);
    Answers { built, reading }
}
