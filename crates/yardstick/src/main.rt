//! Prints what the definitions of the script language say of the script on standard input: the yardstick
//! of the examples in docs/. It runs whole copies by `cow_plain`, and is no part of the program `cowrun`.
//!
//! With the word `--census` the line `copied LEAST of at most BOUND` follows: the copies that the script has
//! to make, and those that the sharing rule allows it. Ends with status 0, with 2 where the words are no
//! option, with 3 where the script has a fault, whose line is then printed, and with 6 where memory ran out.
#![tactic(auto)]

use cow_model::Shape;
use cow_plain::run_script;
use std::io::{Read, Write};
use std::process::ExitCode;
use std::{env, io};

/// The five rules of the program.
const RULES: [Shape; 5] = [
    Shape::Add(1),
    Shape::Negate,
    Shape::Add(10),
    Shape::Even,
    Shape::Below(100),
];

// Whether the words ask for the census. None where they are no option.
fn options(rt: &HostRuntime) -> io::Result<Option<bool>> {
    let mut census = false;
    for word in env::args(rt)?.skip(1) {
        if census || word.as_str() != "--census" {
            return Ok(None);
        }
        census = true;
    }
    Ok(Some(census))
}

fn main(rt: HostRuntime) -> io::Result<ExitCode> {
    let Some(census) = options(&rt)? else {
        println!(rt; "usage: yardstick [--census]")?;
        return Ok(ExitCode::from(2));
    };
    let mut script = Vec::new(rt.alloc());
    rt.reader().read_to_end(&mut script)?;
    match run_script(rt.alloc(), &script, &RULES) {
        Ok(Ok(told)) => {
            io::writer(&rt).write_all(told.text.as_slice())?;
            if census {
                println!(rt; "copied {} of at most {}", told.least, told.bound)?;
            }
            Ok(ExitCode::SUCCESS)
        }
        Ok(Err(fault)) => {
            println!(rt; "{fault}")?;
            Ok(ExitCode::from(3))
        }
        Err(_) => Ok(ExitCode::from(6)),
    }
}
