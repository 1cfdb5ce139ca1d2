// The operands of instructions.

use zc_base::reg::Reg;

/// An operand: a register, or a number.
#[derive(Clone, Copy)]
pub enum Operand {
    Register(Reg),
    Number(i32),
}

/// What follows an instruction's name, in this order.
#[derive(Clone, Copy)]
pub enum Operands {
    Nothing,
    OneNumber(i32),
    TwoNumbers(i32, i32),
    TwoRegisters(Reg, Reg),
    RegisterNumber(Reg, i32),
    RegistersNumber(Reg, Reg, i32),
    ThreeRegisters(Reg, Reg, Reg),
}
