// The code in a field, read and put there.
ghost use Rattle.std.specs.Prelude.{◌≡◌, ℕ, ◌^◌, ◌≤◌, ◌<◌};
ghost use Rattle.templates.specs.Lines.{last_field, row_of};
ghost use Rattle.layout.specs.Contents.{Contents};
ghost use Rattle.layout.specs.Image.{field as field_in};
ghost use Rattle.sheet.specs.Opened.{Opens, Held};
ghost use Rattle.change.specs.Change.{recoded_in};

use sheet::Opened;
use stream::Cursor;

// The code in a field of an opened sheet. The check
// accepted every field, so that none is refused here.
pub fn code_in(sheet: Opened, image: &[u8], field: u64) -> u64
    requires { Held sheet image.now × (1 ≤ field) × (field ≤ last_field sheet.layout.template) }
    ensures { (kind : ℕ) (c : Contents) → Opens kind image.now sheet c → result ≡ (field_in c field).code }
{
    let sizes = sheet.sizes;
    let layout = sheet.layout;
    let row = templates::row_of(layout, field);
    let cursor = Cursor {
        at: layout::locate(layout, field),
    };
    let Ok((code, _)) = cursor.take(sizes, image, row.width as usize) else {
        return 0;
    };
    code
}

// Puts a code into a field of an opened sheet: rewrites the field
// and the check bytes of its pages, no other bit.
pub fn put_code(sheet: Opened, image: &mut [u8], field: u64, code: u64)
    requires field { Held sheet image.old × (1 ≤ field) × (field ≤ last_field sheet.layout.template) }
    requires fits { code < 2 ^ (row_of sheet.layout field).width }
    ensures { (kind : ℕ) (c : Contents) → Opens kind image.old sheet c → image.new ≡ recoded_in sheet.sizes image.old (field_in c field) code }
{
    let layout = sheet.layout;
    let row = templates::row_of(layout, field);
    stream::rewrite(
        sheet.sizes,
        image,
        layout::locate(layout, field),
        row.width as usize,
        code,
    );
}
