//! A whole history of a module, which keeps the law of histories.
ghost use Rattle.std.specs.Prelude.{◌≡◌, ◌≤◌, List, map, length, take, drop, is_ok, IfOk, IfErr, OnOk};
ghost use Rattle.phases.specs.declared.phase.Phase.{Phase as Record};
ghost use Rattle.law.specs.Events.{event};
ghost use Rattle.law.specs.History.{after};
ghost use Rattle.law.specs.Law.{Law, all_answers};
ghost use Rattle.module.specs.Machine.{module_device};
ghost use Rattle.module.specs.Views.{state_in};
ghost use Rattle.history.specs.Histories.{begun, started, shown, acceptable};

use crate::answer::Answer;
use crate::calls::perform;
use faults::Fault;
use law::Call;
use lines::check_address;
use module::Module;
use outputs::StepOutput;
use phases::Phase;
use store::RECORDS;

fn accepts(address: u8, records: usize, calls: usize, answers: usize) -> bool
    ensures { result ≡ acceptable address records calls answers }
{
    check_address(address).is_ok() && records == RECORDS && calls <= answers
}

// A module over the output, new but for its address.
fn begin<O: StepOutput>(output: O, address: u8) -> Module<O>
    requires { address ≤ 63 }
    ensures { (records : List Record) → state_in O.CYCLE result records ≡ started O.CYCLE address (O.meaning output) records }
{
    let mut device = Module::new(output);
    device.set_address(address).unwrap();
    device
}

/// A history: a module made new over the output and set to its address, then moved by these calls alone over this phase memory.
/// The answers of the calls go to the front of `answers`. Refused, with the output given back and nothing changed, where the
/// address is above 63, the memory has not 414 records, or `answers` is shorter than `calls`. Every history keeps the law.
pub fn history<O: StepOutput>(
    output: O,
    address: u8,
    calls: &[Call],
    memory: &mut [Phase],
    answers: &mut [Result<Answer, Fault>],
) -> Result<Module<O>, O>
    ensures taken { is_ok result ≡ acceptable address (length memory.old) (length calls.now) (length answers.old) }
    ensures refused { IfErr result (λ o. (o ≡ output) × (memory.new ≡ memory.old) × (answers.new ≡ answers.old)) }
    ensures state { IfOk result (λ m. state_in O.CYCLE m memory.new ≡ after (module_device O.CYCLE) (started O.CYCLE address (O.meaning output) memory.old) (map event calls.now)) }
    ensures answers { OnOk result (map shown (take (length calls.now) answers.new) ≡ all_answers (module_device O.CYCLE) (begun O.CYCLE address (O.meaning output) memory.old) (map event calls.now)) }
    ensures beyond { drop (length calls.now) answers.new ≡ drop (length calls.now) answers.old }
    ensures law { Law (module_device O.CYCLE) (begun O.CYCLE address (O.meaning output) memory.old) (map event calls.now) }
{
    if !accepts(address, memory.len(), calls.len(), answers.len()) {
        return Err(output);
    }
    let mut device = begin(output, address);
    for (i, call) in calls.iter().enumerate() {
        answers[i] = perform(&mut device, *call, memory);
    }
    Ok(device)
}
