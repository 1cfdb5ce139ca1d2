// Registers by their names.

ghost use Rattle.std.specs.Prelude.{◌≡◌};
ghost use Rattle.load_maker.specs.Instructions.{register_number};

use zc_base::reg::Reg;

/// The registers that the generated code uses, by their names in the ABI (RISC-V ELF psABI, "Integer Register
/// Convention").
#[derive(Clone, Copy)]
pub enum Register {
    Zero,
    Ra,
    Sp,
    Temp1,
    S0,
    A0,
    A1,
    A2,
    A7,
}

impl Register {
    /// The register that has this name.
    pub fn reg(self) -> Reg
        ensures { result ≡ register_number self }
    {
        let number = match self {
            Register::Zero => 0,
            Register::Ra => 1,
            Register::Sp => 2,
            Register::Temp1 => 6,
            Register::S0 => 8,
            Register::A0 => 10,
            Register::A1 => 11,
            Register::A2 => 12,
            Register::A7 => 17,
        };
        Reg::new(number).unwrap()
    }
}
