// Runs the seasons of 01's marked cases through the book's methods and writes every answer, a line to each:
//
//   case,N        the case that follows
//   ok            done
//   ok,V          done, with a figure
//   no,NN         refused with 01's number
#![tactic(auto)]

mod answers;
mod seasons;

use std::io;

fn main(rt: HostRuntime) -> io::Result<()> {
    seasons::case_1(&rt)?;
    seasons::case_2(&rt)?;
    seasons::case_3(&rt)?;
    seasons::case_4(&rt)?;
    seasons::case_5(&rt)?;
    seasons::case_6(&rt)?;
    seasons::case_7(&rt)?;
    seasons::case_8(&rt)?;
    seasons::case_9(&rt)?;
    seasons::case_10(&rt)?;
    seasons::case_11(&rt)?;
    seasons::case_12(&rt)
}
