//! Links RV32IM objects into an executable, as they are or made smaller with 16-bit instructions, leaves out the code
//! that they don't need, shares equal ends of their functions, runs objects and executables, and lists executables.
#![tactic(auto)]

pub mod call;
pub mod check;
pub mod ending;
pub mod err_line;
pub mod gc;
pub mod given;
pub mod input;
pub mod limits;
pub mod list;
pub mod make;
pub mod merge;
pub mod objects;
pub mod outcome;
pub mod plain;
pub mod print;
pub mod program;
pub mod put;
pub mod put_objects;
pub mod ready;
pub mod run;
pub mod share;
pub mod trace;
pub mod zc;
