use pairs::Pairs;
use sessions::session::ask_once;
use sessions::{Session, SessionFault};
use std::test::Fail;
use stores::{NewStore, Reader, Store};
use test_support::claim::claim;
use test_support::sample_edges::pair;

// The answer that a session of a user gets in a role, and the refusal if there is one.
fn asked<R: Reader>(table: &R, user: u16, role: u16, privilege: u16) -> Result<bool, SessionFault> {
    ask_once(table, Session::open(user)?, role, privilege)
}

// User 63 in role 127, which is in a ring of all roles; role 64 has the privilege 255.
fn ring_of_roles<S: Store>(store: &mut S) {
    let _ = store.put(pair(63, 127));
    for role in 64u16..127 {
        let _ = store.put(pair(role + 1, role));
    }
    let _ = store.put(pair(64, 127));
    let _ = store.put(pair(64, 255));
}

fn asks<R: Reader>(table: &R) -> Result<(), Fail> {
    for (user, role, privilege, answer) in [
        (63, 127, 255, Ok(true)),
        (63, 64, 255, Ok(true)),
        (63, 100, 254, Ok(false)),
        (62, 127, 255, Err(SessionFault::NoRole)),
        (64, 127, 255, Err(SessionFault::NoUser)),
        (65535, 65535, 65535, Err(SessionFault::NoUser)),
        (63, 63, 255, Err(SessionFault::NoRole)),
        (63, 128, 255, Err(SessionFault::NoRole)),
        (63, 127, 127, Err(SessionFault::NoPrivilege)),
        (63, 127, 256, Err(SessionFault::NoPrivilege)),
    ] {
        claim(
            asked(table, user, role, privilege) == answer,
            "a session answers so",
        )?;
    }
    Ok(())
}

#[test]
fn answers(rt: HostRuntime) -> Result<(), Fail> {
    let mut table = Pairs::new(rt.alloc(), 512)?;
    ring_of_roles(&mut table);
    asks(&table)?;
    table.drop(pair(90, 89));
    assert!(rt; asked(&table, 63, 127, 255) == Ok(false));
    assert!(rt; asked(&table, 63, 89, 255) == Err(SessionFault::NoRole));
    assert!(rt; asked(&table, 63, 90, 255) == Ok(false));
    Ok(())
}
