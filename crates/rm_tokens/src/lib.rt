//! Delegation tokens: numbers with dates, kept in a journal that is the whole device.
//!
//! `Tokens::open` reads the records that a device holds; `issue`, `renew` and `cancel` each keep one record more, so that a crash
//! at any moment leaves the records from before, or these and the new one; `until` tells until when a token is valid. What a token is after some records,
//! and which record may stand behind which, is defined in `specs/Records.antt`; what bytes a record is, in `specs/Frames.antt`.
//!
//! It stands on `rm_journal`, and on the texts of `rm_types`. The rules are this project's own.
#![tactic(auto)]

mod command;
mod decoding;
mod encoding;
mod fault;
mod laws;
mod reading;
mod rows;
mod token;
mod tokens;
mod writing;

pub use command::Command;
pub use decoding::{RecordError, decode};
pub use encoding::put_record;
pub use fault::TokenError;
pub use laws::{
    law_a_token_lives_on, law_each_call_happens, law_held_is_faultless, law_room, law_token_records,
};
pub use token::{
    CANCELLED_CODE, GREATEST_LIMIT, GREATEST_MOMENT, ISSUED_CODE, RENEWED_CODE, Token, TokenLimits,
    TokenRecord,
};
pub use tokens::Tokens;
