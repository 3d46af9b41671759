// Date codes to dates and text, and back. The way back tests no character: it returns
// the only code that can have the text, and the caller compares that code's text.
ghost use Rattle.std.specs.Prelude.{◌≡◌, ℕ, ◌+◌, ◌-◌, ◌*◌, ◌%◌, ◌<◌, ◌≤◌, length, get_or};
ghost use Rattle.texts.specs.Dates.{leap as leap_year, days_of_year, days_before_year, days_before_month, date_of, date_text};
ghost use Rattle.texts.specs.Whose.{OnlyCode};

// A day of the calendar.
#[derive(Clone, Copy)]
struct Date {
    year: u64,
    month: u64,
    day: u64,
}

// Whether a year is a leap year: divisible by 4, but not by 100 unless by 400.
fn leap(year: u64) -> bool
    ensures { result ≡ leap_year year }
{
    year % 4 == 0 && (year % 100 != 0 || year % 400 == 0)
}

// The days from 1 January 1998 to 1 January of a year: 365 a year,
// and one for each leap year. Up to 1997 there are 484 leap years.
#[tactic(auto, using(crate::proofs::Leap::year_formula))]
fn days_before_year(year: u64) -> u64
    requires { (1998 ≤ year) × (year < 10_000) }
    ensures { result ≡ days_before_year year }
{
    let last = year - 1;
    365 * (year - 1998) + last / 4 - last / 100 + last / 400 - 484
}

// The days of a year that is no leap year before each month, January first.
const DAYS_BEFORE: [u16; 12] = [0, 31, 59, 90, 120, 151, 181, 212, 243, 273, 304, 334];

// The days before a month: from March on a leap year has one more.
fn days_before_month(month: u64, long: bool) -> u64
    requires { (1 ≤ month) × (month ≤ 12) }
    ensures { (year : ℕ) → leap_year year ≡ long → result ≡ days_before_month year month }
{
    let days = u64::from(DAYS_BEFORE[(month - 1) as usize]);
    if long && 2 < month { days + 1 } else { days }
}

// The last year that has a code.
const LAST_YEAR: u64 = 2177;

// The year of a code: the first one that ends after it.
fn year_of(code: u64) -> u64
    requires { code < 65_536 }
    ensures { (1998 ≤ result) × (result ≤ 2177) × (days_before_year result ≤ code) × (code < days_before_year (result + 1)) }
{
    (1998..LAST_YEAR)
        .find(|year| code < days_before_year(*year + 1))
        .unwrap_or(LAST_YEAR)
}

// The month of a day of the year, days counted from
// 0: the first month that ends after it.
fn month_of(year: u64, day: u64) -> u64
    requires { day < days_of_year year }
    ensures { (1 ≤ result) × (result ≤ 12) × (days_before_month year result ≤ day) × (day < days_before_month year (result + 1)) }
{
    let long = leap(year);
    (1..12)
        .find(|month| day < days_before_month(*month + 1, long))
        .unwrap_or(12)
}

// The date of a code.
fn date_of(code: u64) -> Date
    requires { code < 65_536 }
    ensures { date_of code ≡ record { year = result.year; month = result.month; day = result.day } }
{
    let year = year_of(code);
    let rest = code - days_before_year(year);
    let month = month_of(year, rest);
    let day = rest - days_before_month(month, leap(year)) + 1;
    Date { year, month, day }
}

// The last decimal digit of a number, as a character.
fn digit(n: u64) -> u8
    ensures { result ≡ 48 + n % 10 }
{
    b'0' + (n % 10) as u8
}

// The text of a code, as 2018-01-02.
#[tactic(auto, unfolding(crate::specs::Dates::date_text))]
pub fn text_of(code: u64) -> [u8; 10]
    requires { code < 65_536 }
    ensures { result ≡ date_text code }
{
    let Date { year, month, day } = date_of(code);
    [
        digit(year / 1000),
        digit(year / 100),
        digit(year / 10),
        digit(year),
        b'-',
        digit(month / 10),
        digit(month),
        b'-',
        digit(day / 10),
        digit(day),
    ]
}

// How far a character is above the digit 0; 0 if it is below.
fn figure(character: u8) -> u64
    ensures { result ≡ character - 48 }
{
    u64::from(character.saturating_sub(b'0'))
}

// The number that two digits spell.
fn two_digits(text: &[u8], at: usize) -> u64
    requires { at + 1 < length text.now }
    ensures { result ≡ 10 * (get_or text.now at 0 - 48) + (get_or text.now (at + 1) 0 - 48) }
{
    10 * figure(text[at]) + figure(text[at + 1])
}

// All ones, the code of no date.
const NO_DATE: u64 = 65_535;

// The only code that can have this date; `NO_DATE` for a year, month or day that
// no code has. 30 February counts on into March: that code has another date.
fn day_code(year: u64, month: u64, day: u64) -> u64
    ensures { OnlyCode date_of (record { year = year; month = month; day = day }) 65_535 result }
{
    if year < 1998 || LAST_YEAR < year || month < 1 || 12 < month || day < 1 || 31 < day {
        return NO_DATE;
    }
    days_before_year(year) + days_before_month(month, leap(year)) + day - 1
}

// The only code that can have this text of ten characters.
pub fn code_of(text: &[u8]) -> u64
    requires { length text.now ≡ 10 }
    ensures { OnlyCode date_text text.now 65_535 result }
{
    let year = 100 * two_digits(text, 0) + two_digits(text, 2);
    let month = two_digits(text, 5);
    let day = two_digits(text, 8);
    day_code(year, month, day)
}
