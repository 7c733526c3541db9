//! Cases of loads. A line is a seed. What is written is the seed, how many bytes the text of its
//! script has, and their SHA-256 digest in hexadecimal.
use nt_load::load_script;
use nt_script::print;
use sha2::{Digest, Sha256};
use std::alloc::{AllocError, Global};
use std::io;

/// The text of the load of a seed.
fn load_text(alloc: Global, seed: u32) -> Result<Vec<u8>, AllocError> {
    let input = load_script(alloc, seed)?;
    let text = print(alloc, &input);
    drop(input);
    text
}

/// Writes the length and the digest of a seed's text.
fn put_text(rt: &HostRuntime, seed: u32, text: &[u8]) -> io::Result<()> {
    print!(rt; "{seed} {} ", text.len())?;
    let digest = Sha256::digest(text);
    for byte in digest.iter() {
        print!(rt; "{byte:02x}")?;
    }
    println!(rt; "")
}

/// What is written of a seed.
fn put_load(rt: &HostRuntime, seed: u32) -> io::Result<()> {
    let text = load_text(rt.alloc(), seed)?;
    put_text(rt, seed, text.as_slice())
}

/// A line of the table.
pub(crate) fn put_case(rt: &HostRuntime, entry: &str) -> io::Result<()> {
    match entry.parse::<u32>() {
        Ok(seed) => put_load(rt, seed),
        Err(_) => println!(rt; "no seed"),
    }
}
