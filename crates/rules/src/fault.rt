ghost use Rattle.std.specs.Prelude.{◌≡◌, Some};
ghost use Rattle.std.proofs.Common.{rules};
ghost use Rattle.rules.specs.Faults.{of_declare, centre_number, centre_layer, centre_place, work_number, work_layer, work_record};
ghost use Rattle.refusals.specs.declared.place.Place.TheVariants.{Record as AtRecord};

use privileges::DeclareFault;
use refusals::{Layer, LinkFault, Place, Refusal, StoreFault};
use std::fmt;

/// Why the centre refuses a call. What is about a vault names it, and the last two hold the refusals of a
/// link and of a store whole.
#[derive(Clone, Copy, PartialEq, Eq, Debug)]
pub enum CentreFault {
    /// There is no such user.
    NoUser,
    /// The pair is no edge, or an administrative privilege in it is not declared.
    NoEdge,
    /// The user reaches no declared privilege that the rule puts over this one.
    Unauthorised,
    /// The policy has 512 edges.
    PolicyFull,
    /// The store of a vault would not have room.
    StoreRoom { vault: usize },
    /// The link of a vault would not have room.
    LinkRoom { vault: usize },
    /// The privilege is nested deeper than 8.
    TooDeep,
    /// There are 128 declared privileges.
    NamesFull,
    /// There is no vault of that number.
    NoVault { vault: usize },
    /// It is no user privilege.
    NoPrivilege,
    /// Nothing waits at a vault.
    NothingWaiting { vault: usize },
    /// The stage has no such call.
    WrongStage,
    /// The link of a vault refuses.
    Link { vault: usize, fault: LinkFault },
    /// The store of a vault refuses.
    Store { vault: usize, fault: StoreFault },
}

impl Refusal for CentreFault {
    ghost number = { centre_number };

    ghost layer = { centre_layer };

    ghost place = { centre_place };

    ghost listed = { Prim.search rules };

    fn number(&self) -> u8 {
        match self {
            CentreFault::NoUser => 1,
            CentreFault::NoEdge => 2,
            CentreFault::Unauthorised => 3,
            CentreFault::PolicyFull => 4,
            CentreFault::StoreRoom { .. } => 5,
            CentreFault::LinkRoom { .. } => 6,
            CentreFault::TooDeep => 7,
            CentreFault::NamesFull => 8,
            CentreFault::NoVault { .. } => 9,
            CentreFault::NoPrivilege => 10,
            CentreFault::NothingWaiting { .. } => 11,
            CentreFault::WrongStage => 20,
            CentreFault::Link { fault, .. } => fault.number(),
            CentreFault::Store { fault, .. } => fault.number(),
        }
    }

    fn layer(&self) -> Layer {
        match self {
            CentreFault::Link { fault, .. } => fault.layer(),
            CentreFault::Store { fault, .. } => fault.layer(),
            _ => Layer::Centre,
        }
    }

    fn place(&self) -> Option<Place> {
        match self {
            CentreFault::StoreRoom { vault } => Some(Place::Vault(*vault)),
            CentreFault::LinkRoom { vault } => Some(Place::Vault(*vault)),
            CentreFault::NoVault { vault } => Some(Place::Vault(*vault)),
            CentreFault::NothingWaiting { vault } => Some(Place::Vault(*vault)),
            CentreFault::Link { vault, .. } => Some(Place::Vault(*vault)),
            CentreFault::Store { vault, .. } => Some(Place::Vault(*vault)),
            _ => None,
        }
    }
}

impl From<DeclareFault> for CentreFault {
    ghost from_gives = { λ f g. g ≡ of_declare f };

    fn from(fault: DeclareFault) -> CentreFault {
        match fault {
            DeclareFault::NoEdge => CentreFault::NoEdge,
            DeclareFault::TooDeep => CentreFault::TooDeep,
            DeclareFault::NamesFull => CentreFault::NamesFull,
        }
    }
}

/// Why a work list is not carried out in full.
#[derive(Clone, Copy, PartialEq, Eq, Debug)]
pub enum WorkFault {
    /// The centre refuses the command of a record.
    Command { record: usize, fault: CentreFault },
}

impl Refusal for WorkFault {
    ghost number = { work_number };

    ghost layer = { work_layer };

    ghost place = { λ f. Some (AtRecord (work_record f)) };

    ghost listed = { Prim.search rules };

    fn number(&self) -> u8 {
        let WorkFault::Command { fault, .. } = self;
        fault.number()
    }

    fn layer(&self) -> Layer {
        let WorkFault::Command { fault, .. } = self;
        fault.layer()
    }

    fn place(&self) -> Option<Place> {
        let WorkFault::Command { record, .. } = self;
        Some(Place::Record(*record))
    }
}

/// What is refused, in words.
impl fmt::Display for CentreFault {
    ghost use Rattle.std.specs.Prelude.{Some};
    ghost use Rattle.rules.specs.Texts.{centre_text};

    ghost output = { λ f. Some (centre_text f) };

    fn fmt<W: fmt::Write>(&self, f: &mut fmt::Formatter<W>) -> fmt::Result {
        match self {
            CentreFault::NoUser => f.write_str("the user is not below 64"),
            CentreFault::NoEdge => f.write_str(
                "the pair is no edge, or an administrative privilege in it is not declared",
            ),
            CentreFault::Unauthorised => f.write_str(
                "the user reaches no declared privilege that the rule puts over this one",
            ),
            CentreFault::PolicyFull => f.write_str("the policy has 512 edges"),
            CentreFault::StoreRoom { .. } => f.write_str("a store would not have room"),
            CentreFault::LinkRoom { .. } => f.write_str("a link would not have room"),
            CentreFault::TooDeep => f.write_str("the privilege is nested deeper than 8"),
            CentreFault::NamesFull => f.write_str("128 privileges are declared"),
            CentreFault::NoVault { .. } => f.write_str("there is no vault of that number"),
            CentreFault::NoPrivilege => f.write_str("it is no user privilege"),
            CentreFault::NothingWaiting { .. } => f.write_str("nothing waits"),
            CentreFault::WrongStage => f.write_str("the stage has no such call"),
            CentreFault::Link { fault, .. } => write!(f, "{fault}"),
            CentreFault::Store { fault, .. } => write!(f, "{fault}"),
        }
    }
}

/// What is refused, in words.
impl fmt::Display for WorkFault {
    ghost use Rattle.std.specs.Prelude.{Some};
    ghost use Rattle.rules.specs.Texts.{work_text};

    ghost output = { λ f. Some (work_text f) };

    fn fmt<W: fmt::Write>(&self, f: &mut fmt::Formatter<W>) -> fmt::Result {
        match self {
            WorkFault::Command { fault, .. } => write!(f, "{fault}"),
        }
    }
}
