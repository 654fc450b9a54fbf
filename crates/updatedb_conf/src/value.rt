//! The variables of a configuration, and what their values mean.
ghost use Rattle.std.specs.Prelude.{◌≡◌, ◌≤◌, length, if◌then◌else◌};
ghost use Rattle.std.specs.Char.{is_ascii_digit};
ghost use Rattle.std.specs.List.{list_all};
ghost use Rattle.updatedb_conf.specs.Value.{flag_word as flag_of, margin_word as margin_of, number_of, variable_named as variable_of};

/// A variable of updatedb.conf(5), of which `RECENT_MARGIN` is this project's own.
#[derive(Clone, Copy)]
pub(crate) enum Variable {
    PruneBindMounts,
    PruneFs,
    PruneNames,
    PrunePaths,
    RecentMargin,
}

/// The variable of a name.
#[tactic(auto, unfolding(crate::specs::Value::variable_named))]
pub(crate) fn variable_named(name: &[u8]) -> Option<Variable>
    ensures { result ≡ variable_of name.now }
{
    if name == b"PRUNE_BIND_MOUNTS".as_slice() {
        return Some(Variable::PruneBindMounts);
    }
    if name == b"PRUNEFS".as_slice() {
        return Some(Variable::PruneFs);
    }
    if name == b"PRUNENAMES".as_slice() {
        return Some(Variable::PruneNames);
    }
    if name == b"PRUNEPATHS".as_slice() {
        return Some(Variable::PrunePaths);
    }
    if name == b"RECENT_MARGIN".as_slice() {
        return Some(Variable::RecentMargin);
    }
    None
}

/// The flag that a text gives: false for `0` and `no`, true for `1` and `yes`, None for every other.
#[tactic(auto, unfolding(crate::specs::Value::flag_word))]
pub fn flag_word(value: &[u8]) -> Option<bool>
    ensures { result ≡ flag_of value.now }
{
    if value == b"0".as_slice() || value == b"no".as_slice() {
        return Some(false);
    }
    if value == b"1".as_slice() || value == b"yes".as_slice() {
        return Some(true);
    }
    None
}

/// The number that at most four decimal digits write, or None where another byte stands among them.
fn number_written(text: &[u8]) -> Option<u16>
    requires { length text.now ≤ 4 }
    ensures { result ≡ (if list_all is_ascii_digit text.now then Some (number_of text.now) else None) }
{
    let mut number = 0;
    for byte in text {
        if !byte.is_ascii_digit() {
            return None;
        }
        number = number * 10 + u16::from(*byte - b'0');
    }
    Some(number)
}

/// The margin in seconds that a text of 1 to 4 decimal digits gives, or None where the text is another or the number is
/// above 3,600. Leading zeros are allowed.
#[tactic(auto, unfolding(crate::specs::Value::margin_word))]
pub fn margin_word(text: &[u8]) -> Option<u16>
    ensures { result ≡ margin_of text.now }
{
    if text.is_empty() || text.len() > 4 {
        return None;
    }
    let number = number_written(text)?;
    if number > 3600 {
        return None;
    }
    Some(number)
}
