// What goes wrong at the desk itself, where no replica was asked or nothing came of it.
use base::refusals::Refusal;
use std::alloc::AllocError;
use thiserror::Error;

#[derive(Clone, Copy, PartialEq, Eq, Debug, Error)]
pub enum Fault {
    // no member of that number sits at the desk
    #[error("no such member at the desk")]
    NoMember,
    // no message of that index was kept, or a call wrote none where one was asked for
    #[error("no such message")]
    NoMessage,
    // the member has no turn of the phase that the call asks for
    #[error("the member has no such turn")]
    NoTurn,
    #[error("no memory")]
    NoMemory(#[from(alloc)] AllocError),
    // what was to be made by hand was refused
    #[error("refused with {}", .0.number())]
    Refused(#[from] Refusal),
}
