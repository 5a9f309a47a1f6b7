ghost use Rattle.std.specs.Prelude.{◌≡◌, ◌↔◌, true, Ok, if◌then◌else◌, nat_lt};
ghost use Rattle.access.specs.Questions.{MayRead, judged, code};

use crate::fault::AccessFault;
use edges::Kind;
use images::Image;
use refusals::Refusal;
use sessions::session::ask_once;
use sessions::{Session, SessionFault};

// A number as a vertex: a number that is too large for one becomes another that is no vertex. C hands
// over any number, and one refusal answers all that are no vertex, so it is no Option.
fn vertex(number: u32) -> u16
    ensures { result ≡ (if nat_lt number 65535 then number else 65535) }
{
    u16::try_from(number).unwrap_or(u16::MAX)
}

// The questions in their order: user (1), privilege (10), image (18), role (14).
fn answer(image: &[u8], user: u32, role: u32, privilege: u32) -> Result<bool, AccessFault>
    ensures { result ≡ judged image.now user role privilege }
{
    let session = Session::open(vertex(user))?;
    if !Kind::UserPrivilege.has(vertex(privilege)) {
        session.close();
        return Err(AccessFault::Session(SessionFault::NoPrivilege));
    }
    match Image::open(image) {
        Ok(table) => Ok(ask_once(&table, session, vertex(role), vertex(privilege))?),
        Err(fault) => {
            session.close();
            Err(AccessFault::Image(fault))
        }
    }
}

/// Whether a user has access to a privilege in a role, by the table whose image the bytes are: as a
/// session over that table would answer. It asks user (1), privilege (10), image (18), role (14). The
/// numbers come one by one, as C hands them over.
pub fn ask(image: &[u8], user: u32, role: u32, privilege: u32) -> Result<bool, AccessFault>
    ensures answer { result ≡ judged image.now user role privilege }
    ensures law { (result ≡ Ok true) ↔ MayRead image.now user role privilege }
{
    answer(image, user, role, privilege)
}

// An answer as a number: 0 is no, 1 is yes, and a refusal is 100 and its own.
fn code(answer: Result<bool, AccessFault>) -> u32
    ensures { result ≡ code answer }
{
    match answer {
        Ok(allowed) => u32::from(allowed),
        Err(fault) => 100 + u32::from(fault.number()),
    }
}

/// The same for a host program in C, as numbers: 0 is no, 1 is yes, and a refusal is 100 and its own.
#[unsafe(no_mangle)]
pub extern "C" fn kulzhemiq_access(image: &[u8], user: u32, role: u32, privilege: u32) -> u32
    ensures answer { result ≡ code (judged image.now user role privilege) }
    ensures law { (result ≡ 1) ↔ MayRead image.now user role privilege }
{
    code(ask(image, user, role, privilege))
}
