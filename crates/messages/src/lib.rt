// The messages of the key agreement: open session request and response, RAKP messages 1 to 4. Bytes in, fields out, and back.
#![tactic(auto)]

pub mod auth;
pub mod open_session;
pub mod rakp;
pub mod rakp_1;
pub mod rakp_2;
pub mod rakp_3;
pub mod rakp_4;
