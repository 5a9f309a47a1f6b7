ghost use Rattle.std.specs.Prelude.{◌≡◌, ◌↔◌, true, false, Ok, IsOk, OnOk, OnErr, IfOk, IfErr};
ghost use Rattle.edges.specs.Edges.{is_user};
ghost use Rattle.sessions.specs.Sessions.{MayAct, HasAccess, access_answer, answer_once, may_act};

use crate::fault::SessionFault;
use edges::Kind;
use graph::search::reaches;
use stores::Reader;

/// The state of a session without a role.
#[derive(Drop)]
pub struct Idle;

/// The state of a session in a role.
#[derive(Drop)]
pub struct Active {
    role: u16,
}

/// A user's session, in one of these states. It is handed on from call to call, and ends only by
/// being closed.
pub struct Session<S = Idle> {
    user: u16,
    state: S,
}

/// A user's session in a role.
pub type ActiveSession = Session<Active>;

// Whether a user may act in a role.
fn may_act<R: Reader>(table: &R, user: u16, role: u16) -> bool
    ensures { result ≡ may_act (R.Reader.edges table.now) user role }
{
    Kind::Role.has(role) && reaches(table, user, role)
}

// The answer to an access question.
fn answer<R: Reader>(table: &R, user: u16, role: u16, privilege: u16) -> Result<bool, SessionFault>
    ensures { result ≡ access_answer (R.Reader.edges table.now) user role privilege }
{
    if !Kind::UserPrivilege.has(privilege) {
        return Err(SessionFault::NoPrivilege);
    }
    Ok(reaches(table, user, role) && reaches(table, role, privilege))
}

impl<S: Drop> Session<S> {
    /// Whose session it is.
    pub fn user(&self) -> u16
        ensures { result ≡ self.now.user }
    {
        self.user
    }

    /// Ends the session, and says whose it was.
    pub fn close(self) -> u16
        ensures { result ≡ self.user }
    {
        let Session { user, state: _ } = self;
        user
    }
}

impl Session<Idle> {
    /// Opens a session for a user; any other number is refused with 1.
    pub fn open(user: u16) -> Result<Session, SessionFault>
        ensures opened { OnOk result (is_user user ≡ true) }
        ensures session { IfOk result (λ s. s.user ≡ user) }
        ensures refused { OnErr result (is_user user ≡ false) }
        ensures fault { IfErr result (λ f. f ≡ SessionFault.NoUser) }
    {
        if !Kind::User.has(user) {
            return Err(SessionFault::NoUser);
        }
        Ok(Session { user, state: Idle })
    }

    /// Takes a role that the user reaches in the table now. Any other number is refused with 14, and
    /// the session comes back without a role.
    /// Fault and session come as a pair, which a match takes apart in one line.
    pub fn activate<R: Reader>(
        self,
        table: &R,
        role: u16,
    ) -> Result<ActiveSession, (SessionFault, Session)>
        ensures activated { OnOk result (may_act (R.Reader.edges table.now) self.user role ≡ true) }
        ensures session { IfOk result (λ a. (a.user ≡ self.user) × (a.state.role ≡ role)) }
        ensures refused { OnErr result (may_act (R.Reader.edges table.now) self.user role ≡ false) }
        ensures back { IfErr result (λ b. (b.0 ≡ SessionFault.NoRole) × (b.1.user ≡ self.user)) }
        ensures law { IsOk result ↔ MayAct (R.Reader.edges table.now) self.user role }
    {
        let Session { user, state } = self;
        if may_act(table, user, role) {
            return Ok(Session {
                user,
                state: Active { role },
            });
        }
        Err((SessionFault::NoRole, Session { user, state }))
    }
}

impl Session<Active> {
    /// The role of the session.
    pub fn role(&self) -> u16
        ensures { result ≡ self.now.state.role }
    {
        self.state.role
    }

    /// Whether the user has access to a privilege: he reaches the role and the role reaches the
    /// privilege, in the table as it is now. What is no user privilege is refused with 10. The
    /// session is handed back.
    pub fn ask<R: Reader>(
        self,
        table: &R,
        privilege: u16,
    ) -> (Result<bool, SessionFault>, ActiveSession)
        ensures answer { result.0
            ≡ access_answer (R.Reader.edges table.now) self.user self.state.role privilege }
        ensures law { (result.0 ≡ Ok true)
            ↔ HasAccess (R.Reader.edges table.now) self.user self.state.role privilege }
        ensures user { result.1.user ≡ self.user }
        ensures role { result.1.state.role ≡ self.state.role }
    {
        let answer = answer(table, self.user, self.state.role, privilege);
        (answer, self)
    }
}

/// Asks one question by a session of its own: in a role, about a user privilege. It asks role (14),
/// then privilege (10).
pub fn ask_once<R: Reader>(
    table: &R,
    session: Session,
    role: u16,
    privilege: u16,
) -> Result<bool, SessionFault>
    ensures answer { result ≡ answer_once (R.Reader.edges table.now) session.user role privilege }
{
    match session.activate(table, role) {
        Ok(active) => {
            let (answer, active) = active.ask(table, privilege);
            active.close();
            answer
        }
        Err((fault, session)) => {
            session.close();
            Err(fault)
        }
    }
}
