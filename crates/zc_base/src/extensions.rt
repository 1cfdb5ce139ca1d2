// Which extensions a chip has.

ghost use Rattle.std.specs.Prelude.{◌≡◌};
ghost use Rattle.zc_base.specs.MemMap.{all_extensions};

/// Which of Zcb, Zcmp and Zcmt a chip has; it has Zca.
#[derive(Clone, Copy, PartialEq, Eq, Debug)]
pub struct Extensions {
    pub zcb: bool,
    pub zcmp: bool,
    pub zcmt: bool,
}

impl Extensions {
    /// All of them.
    pub fn all() -> Extensions
        ensures { result ≡ all_extensions }
    {
        Extensions {
            zcb: true,
            zcmp: true,
            zcmt: true,
        }
    }
}
