// The parts of a sheet that are listed item by item, and what each item is.
ghost use Rattle.std.specs.Prelude.{◌≡◌};
ghost use Rattle.listing.specs.Listing.{below, item_of, item_said, numbers_of};

use codes::Value;
use refusal::Refusal;
use sheet::Summary;
use templates::{Pair, Segment, Term};

#[derive(Clone, Copy)]
pub enum Part {
    Fields,
    Points,
    Segments,
    Terms,
    Characters,
}

// The numbers of a part's items: from the first to before the end.
#[derive(Clone, Copy)]
pub struct Numbers {
    pub first: u64,
    pub end: u64,
}

// What a read returned of an item.
#[derive(Clone, Copy)]
pub enum Item {
    Field(Result<Value, Refusal>),
    Point(Result<Pair, Refusal>),
    Segment(Result<Segment, Refusal>),
    Term(Result<Term, Refusal>),
    Character(Result<u8, Refusal>),
}

fn below(count: u64) -> Numbers
    ensures { result ≡ below count }
{
    Numbers {
        first: 0,
        end: count,
    }
}

// Fields are numbered from 1 up to the template's last, the others from 0, as many as the check counts.
pub fn numbers_of(part: Part, summary: Summary) -> Numbers
    ensures { result ≡ numbers_of part summary }
{
    match part {
        Part::Fields => {
            let template = summary.template;
            Numbers {
                first: 1,
                end: templates::last_field(template) + 1,
            }
        }
        Part::Points => below(summary.points),
        Part::Segments => below(summary.segments),
        Part::Terms => below(summary.terms),
        Part::Characters => below(summary.characters),
    }
}

// The item of a part at a number.
pub fn item_of(kind: u8, image: &[u8], part: Part, number: u64) -> Item
    ensures { item_said result ≡ item_of kind image.now part number }
{
    match part {
        Part::Fields => Item::Field(sheet::read_field(kind, image, number)),
        Part::Points => Item::Point(sheet::read_pair(kind, image, number)),
        Part::Segments => Item::Segment(sheet::read_segment(kind, image, number)),
        Part::Terms => Item::Term(sheet::read_term(kind, image, number)),
        Part::Characters => Item::Character(sheet::read_character(kind, image, number)),
    }
}
