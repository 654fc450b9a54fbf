//! Values under keys of bytes, in the order of the keys.
ghost use Rattle.std.specs.Prelude.{IfOk, IfErr};
ghost use Rattle.loc_outside.specs.Keyed.{KeysRise, IsAt, IsGap};

/// A value under its key.
#[derive(Drop)]
pub(crate) struct Keyed<V> {
    pub(crate) key: Vec<u8>,
    pub(crate) value: V,
}

/// The place of the key among those that rise, or else the place where it belongs.
pub(crate) fn place_of<V>(items: &[Keyed<V>], key: &[u8]) -> Result<usize, usize>
    requires { KeysRise items.now }
    ensures found { IfOk result (λ place. IsAt items.now key.now place) }
    ensures absent { IfErr result (λ place. IsGap items.now key.now place) }
{
    items.binary_search_by(|item| item.key.as_slice().cmp(&key))
}
