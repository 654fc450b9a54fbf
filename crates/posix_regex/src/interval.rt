//! Intervals: how often `{m,n}` lets a piece repeat.
ghost use Rattle.std.specs.Prelude.{◌≡◌, ◌+◌, ◌-◌, ◌<◌, ◌≤◌, length, IfSome};
ghost use Rattle.std.specs.List.{prefix_len};
ghost use Rattle.posix_regex.specs.Interval.{is_digit, value_of, number_at, closing, bounded, unbounded, after_number, after_first, interval_or, interval_at};

/// How many digits the text begins with.
fn digits(text: &[u8]) -> usize
    ensures value { result ≡ prefix_len is_digit text.now }
    ensures within { result ≤ length text.now }
{
    let mut n = 0;
    while n < text.len() && text[n].is_ascii_digit() {
        n += 1;
    }
    n
}

/// The value of a digit.
fn digit(byte: u8) -> usize
    ensures value { result ≡ byte - 48 }
    ensures bound { result ≤ 207 }
{
    byte.saturating_sub(b'0') as usize
}

/// The value of one, two or three digits.
#[tactic(auto, unfolding(crate::specs::Interval::value_of))]
fn value_of(digits: usize, text: &[u8]) -> usize
    requires some { 0 < digits }
    requires few { digits ≤ 3 }
    requires within { digits ≤ length text.now }
    ensures { result ≡ value_of digits text.now }
{
    if digits == 1 {
        digit(text[0])
    } else if digits == 2 {
        10 * digit(text[0]) + digit(text[1])
    } else {
        100 * digit(text[0]) + 10 * digit(text[1]) + digit(text[2])
    }
}

/// The number at the head of the text, of one to three digits, and how many digits it has.
#[tactic(auto, unfolding(crate::specs::Interval::number_at))]
fn number_at(text: &[u8]) -> Option<(usize, usize)>
    ensures value { result ≡ number_at text.now }
    ensures few { IfSome result (λ n. n.1 ≤ 3) }
    ensures within { IfSome result (λ n. n.1 ≤ length text.now) }
{
    let n = digits(text);
    if n == 0 || 3 < n {
        return None;
    }
    Some((value_of(n, text), n))
}

/// What closes an interval.
#[tactic(auto, unfolding(crate::specs::Interval::closing))]
fn closing(extended: bool) -> &'static [u8]
    ensures value { result.now ≡ closing extended }
    ensures bound { length result.now ≤ 2 }
{
    if extended { b"}" } else { b"\\}" }
}

/// The least count of a repetition, how many more are allowed, and how many bytes the interval takes.
type Bounds = ((usize, Option<usize>), usize);

#[tactic(auto, unfolding(crate::specs::Interval::bounded))]
fn bounded(least: usize, most: usize, taken: usize) -> Option<Bounds>
    ensures value { result ≡ bounded least most taken }
    ensures taken { IfSome result (λ b. b.1 ≡ taken) }
{
    if least <= most && most <= 255 {
        Some(((least, Some(most - least)), taken))
    } else {
        None
    }
}

#[tactic(auto, unfolding(crate::specs::Interval::unbounded))]
fn unbounded(least: usize, taken: usize) -> Option<Bounds>
    ensures value { result ≡ unbounded least taken }
    ensures taken { IfSome result (λ b. b.1 ≡ taken) }
{
    if least <= 255 {
        Some(((least, None), taken))
    } else {
        None
    }
}

/// The rest of an interval, after its comma.
#[tactic(auto, unfolding(crate::specs::Interval::after_number))]
fn after_number(extended: bool, least: usize, taken: usize, text: &[u8]) -> Option<Bounds>
    requires { taken ≤ 4 }
    ensures value { result ≡ after_number extended least taken text.now (number_at text.now) }
    ensures within { IfSome result (λ b. b.1 ≤ taken + length text.now) }
{
    let Some((most, digits)) = number_at(text) else {
        return None;
    };
    let mark = closing(extended);
    if text[digits..].starts_with(mark) {
        bounded(least, most, taken + digits + mark.len())
    } else {
        None
    }
}

/// The rest of an interval, after its first number.
#[tactic(auto, unfolding(crate::specs::Interval::after_first))]
fn after_first(extended: bool, least: usize, taken: usize, text: &[u8]) -> Option<Bounds>
    requires { taken ≤ 3 }
    ensures value { result ≡ after_first extended least taken text.now }
    ensures within { IfSome result (λ b. b.1 ≤ taken + length text.now) }
{
    let mark = closing(extended);
    if text.starts_with(mark) {
        return bounded(least, least, taken + mark.len());
    }
    if !text.starts_with(b",") {
        return None;
    }
    let rest = &text[1..];
    if rest.starts_with(mark) {
        return unbounded(least, taken + 1 + mark.len());
    }
    after_number(extended, least, taken + 1, rest)
}

/// The interval whose opening comes right before the text, and how many bytes of the text it takes.
#[tactic(auto, unfolding(crate::specs::Interval::interval_or))]
pub(crate) fn read_interval(extended: bool, text: &[u8]) -> Option<Bounds>
    ensures value { result ≡ interval_at extended text.now }
    ensures within { IfSome result (λ b. b.1 ≤ length text.now) }
{
    match number_at(text) {
        None => None,
        Some((least, digits)) => after_first(extended, least, digits, &text[digits..]),
    }
}
