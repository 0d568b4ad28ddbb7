// The text for a record file.
use super::calls::Reply;
use super::examination::examine;
use super::network::Network;
use super::reading::read;
use super::refusals::{Refusal, Stop};
use super::sets::{Kind, Set};
use super::steps::settle;
use std::alloc::{AllocError, Global};

// The most cells that a program holds.
const CELLS: usize = 8192;

// A line for each cell that is not loose.
fn listing(heap: Global, network: &Network, course: &[Set]) -> Result<String, AllocError> {
    let all = network.kind.all();
    let mut text = String::new(heap);
    for (place, set) in course.iter().enumerate() {
        if *set != all {
            let cell = network.cell_at(place);
            let halves = network.kind.halves(set);
            writeln!(text, "{cell} {halves}")?;
        }
    }
    Ok(text)
}

// The text of a file that is not refused.
fn conclude(heap: Global, kind: Kind, bytes: &[u8]) -> Result<String, Stop> {
    let network = read(heap, kind, bytes)?;
    examine(&network)?;
    if network.cells() > CELLS {
        return Err(Refusal::Course.into());
    }
    let course = settle(heap, &network)?;
    match network.first_void(&course) {
        Some(cell) => {
            let reply = Reply::Contradiction(cell);
            Ok(format!(in heap; "{reply}\n")?)
        }
        None => Ok(listing(heap, &network, &course)?),
    }
}

// The text for the bytes of a record file.
pub fn answer(heap: Global, kind: Kind, bytes: &[u8]) -> Result<String, AllocError> {
    conclude(heap, kind, bytes).or_else(|stop| stop.line(heap))
}
