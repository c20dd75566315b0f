//! The code so far. It is put from the last instruction to the first, so what stands after an instruction is known
//! when it is put, and no jump is ever written back.
ghost use Rattle.std.specs.List.{list_all};
ghost use Rattle.std.specs.Prelude.{◌≡◌, true};
ghost use Rattle.tmpl_code.specs.computed.Tables.{fits};

mod methods;

use crate::instruction::Instruction;
use crate::tables::Tables;

/// Instructions, the first one last, and what they name.
#[derive(Drop)]
pub(crate) struct Code {
    tables: Tables,
    instructions: Vec<Instruction>,
    ghost fitting: { list_all (fits tables) instructions.items ≡ true },
}
