// The conformity of an image with a certificate's points, in the order of its refusals.
ghost use Rattle.std.specs.Prelude.{◌≡◌, true, false, ℕ, ◌^◌, ◌≤◌};
ghost use Rattle.refusal.specs.Outcome.{Ok};
ghost use Rattle.build.specs.Build.{pairs_lent};
ghost use Rattle.layout.specs.Contents.{Contents};
ghost use Rattle.layout.specs.Image.{points as points_of};
ghost use Rattle.correction.specs.Ranges.{Table};
ghost use Rattle.sheet.specs.Opened.{Opens, Held};
ghost use Rattle.reading.specs.Reading.{is_resistance};
ghost use Rattle.distance.specs.Distance.{distance as distance_of};
ghost use Rattle.conformity.specs.Conformity.{compared_with, conformity as conformity_of};
ghost use Rattle.conformity.specs.Steps.{is_straight};

use crate::differences::greatest;
use crate::stored::stored_points;
use distance::CertificateBound;
use refusal::Refusal;
use sheet::Opened;
use templates::{Domain, Template};

// Whether the sheet corrects by a straight table: one of domain 0, or none.
fn is_straight(domain: Option<Domain>, segments: u64) -> bool
    ensures { result ≡ is_straight domain segments }
{
    match domain {
        None => segments == 0,
        Some(Domain::Electrical) => true,
        Some(Domain::Physical) => false,
    }
}

// K and B of an opened sheet's points against the lent ones, whose K is known.
fn compared(sheet: Opened, image: &[u8], points: &[i64], slope: u64) -> CertificateBound
    requires { Held sheet image.now × Table (pairs_lent points.now) × (slope ≤ 2 ^ 43) }
    ensures { (kind : ℕ) (c : Contents) → Opens kind image.now sheet c → result ≡ compared_with slope (points_of c) (pairs_lent points.now) }
{
    let summary = sheet.summary;
    let end = 2 * summary.points as usize;
    let room = stored_points(sheet, image);
    let stored = &room[..end];
    let most = greatest(stored, points).max(greatest(points, stored));
    CertificateBound {
        slope,
        bound: 2000 + slope + most,
    }
}

// The conformity of an opened sheet of template 33 with a list that a build in domain 0 accepts.
fn conformity_to(
    sheet: Opened,
    image: &[u8],
    points: &[i64],
    beforehand: CertificateBound,
) -> Result<Option<CertificateBound>, Refusal>
    requires { Held sheet image.now × (is_resistance sheet.layout.template ≡ false) × (distance_of points.now ≡ Ok beforehand) }
    ensures { (kind : ℕ) (c : Contents) → Opens kind image.now sheet c → result ≡ conformity_of kind image.now points.now }
{
    let summary = sheet.summary;
    let domain = summary.domain;
    if is_straight(domain, summary.segments) {
        return Ok(Some(compared(sheet, image, points, beforehand.slope)));
    }
    Ok(None)
}

// The conformity of an opened sheet: 4 at the first selector for
// template 32, then the list as a build in domain 0 refuses it.
fn conformity_in(
    sheet: Opened,
    image: &[u8],
    points: &[i64],
) -> Result<Option<CertificateBound>, Refusal>
    requires { Held sheet image.now }
    ensures { (kind : ℕ) (c : Contents) → Opens kind image.now sheet c → result ≡ conformity_of kind image.now points.now }
{
    let layout = sheet.layout;
    let template = layout.template;
    match template {
        Template::Resistance => Err(Refusal::WrongBlock(layout::FIRST_SELECTOR as u64)),
        Template::Bridge => {
            let beforehand = distance::distance(points)?;
            conformity_to(sheet, image, points, beforehand)
        }
    }
}

// How far any reading of an image can be from the line through a certificate's
// points: K and B, or that there is no straight table to compare. Else the
// check's refusal; 4 for template 32; 16 for a list that is odd or over 254
// long; then pair by pair 10 for the point, 10 for its deviation, and 7.
pub fn conformity(
    kind: u8,
    image: &[u8],
    points: &[i64],
) -> Result<Option<CertificateBound>, Refusal>
    ensures { result ≡ conformity_of kind image.now points.now }
{
    let sheet = sheet::open(kind, image)?;
    conformity_in(sheet, image, points)
}
