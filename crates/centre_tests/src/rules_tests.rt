use edges::Change;
use pairs::Pairs;
use precedence::Precedence;
use precedence_rules::{Full, Plain};
use privileges::Privileges;
use std::alloc::Global;
use std::test::Fail;
use stores::{NewStore, Store};
use test_support::claim::claim;
use test_support::sample_edges::{adding, pair, removing};

// 256 is +(u2,r0), 257 is +(r2,256), 258 is +(u2,r1), 259 is -(r1,p0).
fn four(alloc: Global) -> Result<Privileges, Fail> {
    let mut names = Privileges::new(alloc)?;
    for (change, number) in [
        (adding(2, 64), 256),
        (adding(66, 256), 257),
        (adding(2, 65), 258),
        (removing(65, 128), 259),
    ] {
        claim(names.declare(change) == Ok(number), "it has that number")?;
    }
    Ok(names)
}

// Whether a rule says so of each of some pairs: held, wanted, and the answer.
fn says<P: Precedence>(
    rule: &P,
    names: &Privileges,
    policy: &Pairs,
    rows: &[(Change, Change, bool)],
) -> Result<(), Fail> {
    for (held, wanted, answer) in rows {
        claim(
            rule.stands(names, policy, *held, *wanted) == *answer,
            "the rule says so",
        )?;
    }
    Ok(())
}

// In a policy where r0 leads to r1: what is given to r0 may be given to r1, inside as well, and nothing
// about removals.
#[test]
fn chained(rt: HostRuntime) -> Result<(), Fail> {
    let names = four(rt.alloc())?;
    let mut policy = Pairs::new(rt.alloc(), 512)?;
    claim(policy.put(pair(64, 65)).is_ok(), "r0 leads to r1")?;
    says(
        &Full,
        &names,
        &policy,
        &[
            (adding(2, 64), adding(2, 64), true),
            (adding(2, 64), adding(2, 65), true),
            (adding(2, 65), adding(2, 64), false),
            (adding(66, 256), adding(66, 258), true),
            (adding(66, 258), adding(66, 256), false),
            (adding(66, 259), adding(66, 256), false),
            (adding(65, 128), adding(64, 128), true),
            (adding(65, 128), adding(64, 129), false),
            (adding(65, 128), adding(2, 128), false),
            (removing(2, 64), removing(2, 65), false),
            (removing(2, 64), removing(2, 64), true),
            (adding(2, 64), removing(2, 65), false),
            (removing(2, 64), adding(2, 65), false),
        ],
    )?;
    says(
        &Plain,
        &names,
        &policy,
        &[
            (adding(2, 64), adding(2, 64), true),
            (adding(2, 64), adding(2, 65), false),
            (adding(66, 256), adding(66, 258), false),
            (removing(2, 64), removing(2, 64), true),
            (removing(2, 64), adding(2, 64), false),
        ],
    )
}

// In a policy without that edge.
#[test]
fn unchained(rt: HostRuntime) -> Result<(), Fail> {
    let names = four(rt.alloc())?;
    let policy = Pairs::new(rt.alloc(), 512)?;
    says(
        &Full,
        &names,
        &policy,
        &[
            (adding(2, 64), adding(2, 65), false),
            (adding(66, 256), adding(66, 258), false),
            (adding(66, 256), adding(66, 256), true),
            (adding(65535, 65535), adding(65535, 65535), true),
            (adding(65535, 256), adding(65535, 383), false),
        ],
    )
}
