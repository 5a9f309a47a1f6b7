use crate::company::{OneVault, company};
use crate::steps::{ACCEPTED, add, begun, deliver, keep, remove, seat, wish};
use banks::NewBank;
use calls::Call;
use centre::Installation;
use centre::running::{give, run};
use edges::Change;
use precedence_rules::Full;
use rules::{CallRecord, CentreFault, CommandRecord, WorkFault};
use std::alloc::{AllocError, Global};
use std::test::Fail;
use test_support::claim::claim;

// The worked examples' calls, with some that their stage has not, in a list by itself.
fn list() -> [(Call, Result<u16, CentreFault>); 38] {
    let wrong_stage = Err(CentreFault::WrongStage);
    let refused = Err(CentreFault::Unauthorised);
    [
        (seat(64, 65), wrong_stage),
        (Call::Open, wrong_stage),
        (Call::Declare(add(2, 64)), Ok(256)),
        (Call::Declare(add(66, 256)), Ok(257)),
        (Call::Declare(add(2, 65)), Ok(258)),
        (Call::Declare(remove(65, 128)), Ok(259)),
        (Call::Declare(add(66, 256)), Ok(257)),
        (Call::Declare(add(2, 260)), Err(CentreFault::NoEdge)),
        (keep(0, 128), ACCEPTED),
        (keep(1, 128), Err(CentreFault::NoVault { vault: 1 })),
        (keep(0, 127), Err(CentreFault::NoPrivilege)),
        (deliver(0), wrong_stage),
        (wish(1, add(2, 64)), wrong_stage),
        (Call::EndNaming, ACCEPTED),
        (Call::EndNaming, wrong_stage),
        (Call::Declare(add(2, 64)), wrong_stage),
        (keep(0, 129), wrong_stage),
        (wish(1, add(2, 64)), wrong_stage),
        (seat(64, 65), ACCEPTED),
        (seat(65, 128), ACCEPTED),
        (seat(1, 66), ACCEPTED),
        (seat(66, 256), ACCEPTED),
        (seat(0, 67), ACCEPTED),
        (seat(67, 257), ACCEPTED),
        (seat(67, 259), ACCEPTED),
        (seat(64, 63), Err(CentreFault::NoEdge)),
        (Call::Apply { vault: 0 }, ACCEPTED),
        (Call::Open, ACCEPTED),
        (seat(64, 66), wrong_stage),
        (Call::Open, wrong_stage),
        (wish(1, remove(2, 64)), refused),
        (wish(1, add(2, 65)), Err(CentreFault::LinkRoom { vault: 0 })),
        (deliver(0), ACCEPTED),
        (wish(1, add(2, 65)), ACCEPTED),
        (wish(0, remove(65, 128)), ACCEPTED),
        (deliver(0), ACCEPTED),
        (Call::Apply { vault: 0 }, ACCEPTED),
        (deliver(1), Err(CentreFault::NoVault { vault: 1 })),
    ]
}

// The same calls by `run` and by `give`: the same answers, and the same is left.
fn both_ways<B: NewBank + Drop>(alloc: Global) -> Result<(), Fail> {
    let rows = list();
    let mut records = rows.map(|(call, _)| CallRecord {
        call,
        answer: Ok(7),
    });
    let bank = B::new(alloc, 5, 512)?;
    let ran = run(alloc, bank, Full, &mut records).map_err(|_| AllocError)?;
    let mut given = begun::<B, Full>(alloc, 5, 512, Full)?;
    for place in 0..38usize {
        let (call, answer) = rows[place];
        let (next, said) = give(given, call);
        given = next;
        claim(said == answer, "give has that answer")?;
        claim(records[place].answer == answer, "run has that answer")?;
    }
    claim(
        ran.office().edges() == given.office().edges(),
        "the policies are alike",
    )?;
    claim(
        ran.office().told_count(0) == given.office().told_count(0),
        "as much is told",
    )
}

#[test]
fn by_run_and_by_give(rt: HostRuntime) -> Result<(), Fail> {
    both_ways::<OneVault>(rt.alloc())
}

fn record(user: u16, change: Change) -> CommandRecord {
    CommandRecord {
        user,
        change,
        answer: Err(CentreFault::WrongStage),
    }
}

// Each record of a work list has its answer; the list goes on behind a refusal, and the first is told.
fn in_one_go<B: NewBank + Drop>(alloc: Global) -> Result<(), Fail> {
    let at = company::<B, Full>(alloc, 1024, 512, Full, true)?;
    let Installation::Service(mut service) = at else {
        return Err(Fail::new("it is open"));
    };
    let mut list = [
        record(1, add(2, 64)),
        record(1, remove(2, 64)),
        record(64, add(2, 64)),
        record(0, remove(65, 128)),
    ];
    let told = service.work(&mut list);
    let first = WorkFault::Command {
        record: 1,
        fault: CentreFault::Unauthorised,
    };
    claim(told == Err(first), "the first refusal is told")?;
    claim(list[0].answer == Ok(()), "the first is accepted")?;
    claim(
        list[2].answer == Err(CentreFault::NoUser),
        "the third has no user",
    )?;
    claim(list[3].answer == Ok(()), "the last is accepted")?;
    let mut good = [record(1, add(2, 64)), record(1, add(2, 65))];
    claim(service.work(&mut good) == Ok(()), "nothing is refused")?;
    claim(
        service.office().edges().len() == 8,
        "the policy has eight edges",
    )
}

#[test]
fn work_lists(rt: HostRuntime) -> Result<(), Fail> {
    in_one_go::<OneVault>(rt.alloc())
}
