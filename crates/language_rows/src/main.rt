//! The examples of the language: each source of `data/`, and what is answered to it. It stands on the stages that `chimera`
//! joins. The program goes over the table `data/rows`, and tells each row whose answer isn't as the table says.
#![tactic(auto)]

mod answered;
mod table;

use command_line::FileShelf;
use std::process::ExitCode;
use table::{Checked, check_table};

fn main(rt: HostRuntime) -> ExitCode {
    let mut shelf = FileShelf::new(&rt);
    let told = match check_table(rt.alloc(), &mut shelf) {
        Ok(Checked::AllHold) => rt.println("each row holds"),
        Ok(Checked::Differ(text)) => rt.println(text),
        Err(_) => return ExitCode::from(9),
    };
    match told {
        Ok(()) => ExitCode::SUCCESS,
        Err(_) => ExitCode::from(8),
    }
}
