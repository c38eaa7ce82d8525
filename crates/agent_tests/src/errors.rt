//! The texts of errors as a program prints them, each once.

mod assembly;
mod code;
mod objects;
mod stream_faults;
mod told;
