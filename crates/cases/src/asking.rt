// Cases of inks by name.
use ink_names::{Side, name_start};
use inks::{find, name_in};
use octets::of_signed;
use std::io::Result;
use text::{say, say_dotted, say_size};

fn say_page(rt: &impl Print, page: Side) -> Result<()> {
    match page {
        Side::Job => say(rt, b"job"),
        Side::House => say(rt, b"house"),
    }
}

fn say_found(rt: &impl Print, page: Side, block: u32, name: &[u8]) -> Result<()> {
    say(rt, b"found ")?;
    say_page(rt, page)?;
    say(rt, b" block ")?;
    say_size(rt, block)?;
    say(rt, b" byte ")?;
    let start = name_start(block);
    print!(rt; "{start}")?;
    say(rt, b" x")?;
    say_dotted(rt, name)
}

fn ask<'a>(rt: &impl Print, job: &'a [u8], house: &'a [u8], name: &[u8]) -> Result<()> {
    match find(job, house, name) {
        Ok(found) => say_found(rt, found.page, found.block, name_in(job, house, name)),
        Err(error) => print!(rt; "{error}"),
    }
}

// Asks of the house page and the name that stand after the job's page.
fn ask_of<'a>(rt: &impl Print, job: &'a [u8], rest: &'a [u8], size: usize) -> Result<()> {
    if size <= rest.len() {
        ask(rt, job, &rest[..size], &rest[size..])?;
    }
    Ok(())
}

// Asks for an ink: the bytes are the job's page, the house page and the name, after the lengths of the two pages.
pub fn ink_case(rt: &impl Print, v: [i32; 24], bytes: &[u8]) -> Result<()> {
    let size = of_signed(v[1]) as usize;
    if size <= bytes.len() {
        ask_of(rt, &bytes[..size], &bytes[size..], of_signed(v[2]) as usize)?;
    }
    Ok(())
}
