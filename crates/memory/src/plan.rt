ghost use Rattle.std.specs.Prelude.{◌≡◌, true, false, length, is_ok};
ghost use Rattle.memory.specs.Plan.{plan_answer, Rising, PlanWritten, Placed};

use crate::fault::Fault;
use crate::memory::Memory;

// A page to be written, and its bytes.
#[derive(Clone, Copy)]
pub struct PageWrite {
    pub page: usize,
    pub bytes: [u8; 16],
}

// Whether every page of the plan can be written: the refusal of the first that cannot.
fn all_open<M: Memory>(memory: &M, plan: &[PageWrite]) -> Result<(), Fault>
    ensures { result ≡ plan_answer (length (M.pages memory.now)) (M.worn memory.now) plan.now }
{
    for entry in plan {
        if memory.is_worn(entry.page)? {
            return Err(Fault::Worn);
        }
    }
    Ok(())
}

// Writes every page of a plan, lowest page first and each once, or nothing where one of them cannot be written:
// it asks for every mark before the first write.
pub fn write_plan<M: Memory>(memory: &mut M, plan: &[PageWrite]) -> Result<(), Fault>
    requires { Rising plan.now }
    ensures written { PlanWritten (M.pages memory.old) (M.worn memory.old) plan.now result (M.pages memory.new) (M.worn memory.new) }
    ensures places { is_ok result ≡ true → Placed (M.pages memory.old) plan.now (M.pages memory.new) }
    ensures outside { M.outside memory.new ≡ M.outside memory.old }
    ensures refused { is_ok result ≡ false → memory.new ≡ memory.old }
{
    all_open(memory, plan)?;
    for entry in plan {
        memory.write(entry.page, entry.bytes)?;
    }
    Ok(())
}
