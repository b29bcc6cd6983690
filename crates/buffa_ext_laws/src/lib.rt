//! Laws of extensions and of Items of a MessageSet: what the definitions of `buffa_codec`, `buffa_ext` and
//! `buffa_message_set` say together, and what the contracts there leave out. Each law is a function with nothing to do,
//! whose contract is the law.
#![tactic(auto)]

pub mod codec_names;
pub mod codec_words;
pub mod codecs;
pub mod extension_words;
pub mod extensions;
pub mod items;
pub mod merging_words;
pub mod strict_readings;
