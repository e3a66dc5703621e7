// Reads one line of a text by its form.
#![tactic(auto)]

ghost use Rattle.std.specs.Prelude.{◌≡◌, ◌≢◌, ◌≤◌, ◌+◌, true, [], ◌∷◌, length, take};
ghost use Rattle.base.specs.Lists.{every};
ghost use Rattle.plan.specs.Limits.{most_digits};
ghost use Rattle.plan.specs.Plan.{is_letter};
ghost use Rattle.format.specs.Lines.{is_digit, digits, is_value, decimal};
ghost use Rattle.line_reader.specs.Seen.{said, started, Gives, advance};

// The most digits of a value.
const MOST_DIGITS: usize = 5;

// A line that is read in part or whole: its two latest values, and the bytes that follow.
#[derive(Clone, Copy)]
pub struct Line<'a> {
    pub first: u32,
    pub second: u32,
    pub rest: &'a [u8],
}

fn is_digit(b: u8) -> bool
    ensures { result ≡ is_digit b }
{
    b'0' <= b && b <= b'9'
}

// How many digits stand at the front of a text, counted up to one more than a value has.
fn digit_count(text: &[u8]) -> usize
    ensures { result ≡ length (digits (take (most_digits + 1) text.now)) }
{
    let front = &text[..text.len().min(MOST_DIGITS + 1)];
    front
        .iter()
        .position(|b| !is_digit(*b))
        .unwrap_or(front.len())
}

// One digit, or several up to five, of which the first is not `0`.
#[tactic(auto, unfolding(format::specs::Lines::is_value))]
fn is_value(digits: &[u8]) -> bool
    ensures { result ≡ is_value digits.now }
{
    match digits {
        [] => false,
        [_] => true,
        [first, ..] => *first != b'0' && digits.len() <= MOST_DIGITS,
    }
}

// The number that digits say.
fn decimal(digits: &[u8]) -> u32
    requires { (every is_digit digits.now ≡ true) × (length digits.now ≤ most_digits) }
    ensures { result ≡ decimal 0 digits.now }
{
    let mut number = 0;
    for b in digits {
        number = number * 10 + u32::from(*b - b'0');
    }
    number
}

fn is_letter(b: u8) -> bool
    ensures { result ≡ is_letter b }
{
    match b {
        b'a' | b's' | b'p' | b'x' => true,
        _ => false,
    }
}

// `#` in a form.
fn value(line: Line) -> Option<Line>
    ensures { Gives result (advance (35 ∷ []) (said line.entry)) }
{
    let (digits, rest) = line.rest.split_at(digit_count(line.rest));
    if is_value(digits) {
        Some(Line {
            first: line.second,
            second: decimal(digits),
            rest,
        })
    } else {
        None
    }
}

// `@` in a form.
fn letter(line: Line) -> Option<Line>
    ensures { Gives result (advance (64 ∷ []) (said line.entry)) }
{
    let (b, rest) = line.rest.split_first()?;
    if is_letter(*b) {
        Some(Line {
            first: line.second,
            second: u32::from(*b),
            rest,
        })
    } else {
        None
    }
}

// Any other byte of a form.
fn literal(line: Line, b: u8) -> Option<Line>
    requires { (b ≢ 35) × (b ≢ 64) }
    ensures { Gives result (advance (b ∷ []) (said line.entry)) }
{
    let (first, rest) = line.rest.split_first()?;
    if *first == b {
        Some(Line { rest, ..line })
    } else {
        None
    }
}

// One byte of a form.
fn piece(line: Line, b: u8) -> Option<Line>
    ensures { Gives result (advance (b ∷ []) (said line.entry)) }
{
    match b {
        b'#' => value(line),
        b'@' => letter(line),
        _ => literal(line, b),
    }
}

// The line of a form at the front of a text.
pub fn read_line<'a>(text: &'a [u8], form: &[u8]) -> Option<Line<'a>>
    ensures { Gives result (advance form.now (started text.now)) }
{
    let mut line = Line {
        first: 0,
        second: 0,
        rest: text,
    };
    for b in form {
        line = piece(line, *b)?;
    }
    Some(line)
}
