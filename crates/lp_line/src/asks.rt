// What sessions are asked and reply, with the models, names and numbers of the code.
use lp_base::{Bytes, Name, Texts};
use lp_certificate::RawCertificate;
use lp_frac::Frac;
use lp_model::{Edit, UsualModel};

/// What the words of a line ask.
pub type Command = spec_server::Command<Edit>;

/// A command of one line.
pub type Plain = spec_server::Plain<Edit>;

/// What a session is asked.
pub type Ask = spec_server::Ask<UsualModel, RawCertificate, Edit>;

/// An ask with the number of its session.
pub type Asked = spec_server::Asked<Ask>;

/// What a session replies.
pub type Reply = spec_server::Reply<Name, Frac, Bytes, Texts>;

/// Why a session refuses.
pub type Refusal = spec_server::Refusal<Name, Bytes>;
