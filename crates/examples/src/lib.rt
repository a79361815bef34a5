// What the example programs share.
#![tactic(auto)]

pub mod report; // checks, bodies and answers printed
pub mod memory; // pools made and bytes of them changed
pub mod calls; // calls that print their answers
pub mod saves; // set-ups saved and recalled
