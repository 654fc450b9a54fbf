//! Character classes.
ghost use Rattle.std.specs.Prelude.{◌≡◌, ◌+◌, ◌≤◌, length, IfSome};
ghost use Rattle.std.specs.List.{prefix_len};
ghost use Rattle.byte_class.specs.Class.{is_alpha, class_named, class_has, class_at};

/// A character class of the POSIX locale.
#[derive(Clone, Copy)]
pub enum Class {
    Alpha,
    Digit,
    Alnum,
    Lower,
    Upper,
    Xdigit,
    Blank,
    Space,
    Cntrl,
    Graph,
    Print,
    Punct,
}

impl Class {
    /// The class of a name, if there is one.
    #[tactic(auto, unfolding(crate::specs::Class::class_named))]
    pub fn named(name: &[u8]) -> Option<Class>
        ensures { result ≡ class_named name.now }
    {
        if name == b"alpha".as_slice() {
            Some(Class::Alpha)
        } else if name == b"digit".as_slice() {
            Some(Class::Digit)
        } else if name == b"alnum".as_slice() {
            Some(Class::Alnum)
        } else if name == b"lower".as_slice() {
            Some(Class::Lower)
        } else if name == b"upper".as_slice() {
            Some(Class::Upper)
        } else if name == b"xdigit".as_slice() {
            Some(Class::Xdigit)
        } else if name == b"blank".as_slice() {
            Some(Class::Blank)
        } else if name == b"space".as_slice() {
            Some(Class::Space)
        } else if name == b"cntrl".as_slice() {
            Some(Class::Cntrl)
        } else if name == b"graph".as_slice() {
            Some(Class::Graph)
        } else if name == b"print".as_slice() {
            Some(Class::Print)
        } else if name == b"punct".as_slice() {
            Some(Class::Punct)
        } else {
            None
        }
    }

    /// Whether the class has the byte.
    #[tactic(auto, using(crate::proofs::Classes::class_tests), unfolding(crate::specs::Class::class_has))]
    pub fn has(self, byte: u8) -> bool
        ensures { result ≡ class_has self byte }
    {
        match self {
            Class::Alpha => byte.is_ascii_alphabetic(),
            Class::Digit => byte.is_ascii_digit(),
            Class::Alnum => byte.is_ascii_alphanumeric(),
            Class::Lower => byte.is_ascii_lowercase(),
            Class::Upper => byte.is_ascii_uppercase(),
            Class::Xdigit => byte.is_ascii_hexdigit(),
            Class::Blank => byte == b'\t' || byte == b' ',
            Class::Space => byte.is_ascii_whitespace() || byte == 0x0B,
            Class::Cntrl => byte.is_ascii_control(),
            Class::Graph => byte.is_ascii_graphic(),
            Class::Print => byte.is_ascii_graphic() || byte == b' ',
            Class::Punct => byte.is_ascii_punctuation(),
        }
    }
}

/// How many letters a text begins with.
fn letters(text: &[u8]) -> usize
    ensures value { result ≡ prefix_len is_alpha text.now }
    ensures within { result ≤ length text.now }
{
    let mut n = 0;
    while n < text.len() && text[n].is_ascii_alphabetic() {
        n += 1;
    }
    n
}

/// The length of the name of the class that stands first, if one does.
#[tactic(auto, unfolding(crate::specs::Class::class_at))]
pub fn read_class(text: &[u8]) -> Option<usize>
    ensures value { result ≡ class_at text.now }
    ensures within { IfSome result (λ letters. letters + 4 ≤ length text.now) }
{
    if !text.starts_with(b"[:") {
        return None;
    }
    let inside = &text[2..];
    let len = letters(inside);
    if inside[len..].starts_with(b":]") {
        Some(len)
    } else {
        None
    }
}
