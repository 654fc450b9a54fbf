//! The byte that ends each path of a list.
ghost use Rattle.std.specs.Prelude.{◌≡◌};
ghost use Rattle.path_list.specs.Marks.{byte_of};

/// What ends each path of a list.
#[derive(Clone, Copy, Debug, PartialEq, Eq)]
pub enum Mark {
    /// A newline: the format `list`.
    Newline,
    /// A zero byte: the format `list0`, as `find -print0` writes it.
    Zero,
}

impl Mark {
    /// Its byte.
    #[inline(always)]
    pub fn byte(self) -> u8
        ensures { result ≡ byte_of self }
    {
        match self {
            Mark::Newline => b'\n',
            Mark::Zero => 0,
        }
    }
}
