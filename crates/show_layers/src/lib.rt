// Lines for programs (document 02, P13): each with the number of layers and the layer of each block that the call answers, or with its refusal.

#![tactic(auto)]

use std::io::Result;

// The answer for a program, where the buffer holds bytes that are no layers.
fn show_layers(rt: &impl Print, blocks: &[u8], out: &mut [u8]) -> Result<()> {
    match layer::blocks_to_layers(blocks, out) {
        Ok(n) => {
            show::show_number(rt, b": layers ", n)?;
            show::show_bytes(rt, b", layer", show::front(out))?;
            show::show(rt, b"\n")
        }
        Err(refusal) => show::end_refused(rt, refusal),
    }
}

// A program, with room for its blocks.
fn blocks_case(rt: &impl Print, blocks: &[u8]) -> Result<()> {
    let mut out = [show::UNWRITTEN; block::MOST_BLOCKS];
    show::show_bytes(rt, b"blocks", blocks)?;
    show_layers(rt, blocks, &mut out)
}

// The same with a buffer of two bytes.
fn two_bytes_case(rt: &impl Print, blocks: &[u8]) -> Result<()> {
    let mut out = [show::UNWRITTEN; 2];
    show::show_bytes(rt, b"two bytes for blocks", blocks)?;
    show_layers(rt, blocks, &mut out)
}

// 64 blocks on qubits 0 and 1.
fn same_blocks() -> [u8; 128] {
    let mut blocks = [0; 128];
    for n in 0..64 {
        blocks[2 * n + 1] = 1;
    }
    blocks
}

// No block, one, a chain there and back, blocks that share nothing, and some of either.
fn few(rt: &impl Print) -> Result<()> {
    blocks_case(rt, &[])?;
    blocks_case(rt, &[0, 1])?;
    blocks_case(rt, &[0, 1, 1, 2, 2, 3, 3, 4])?;
    blocks_case(rt, &[3, 4, 2, 3, 1, 2, 0, 1])?;
    blocks_case(rt, &[0, 1, 2, 3, 31, 30])?;
    blocks_case(rt, &[0, 1, 2, 3, 1, 2, 0, 1, 4, 5])
}

// As many blocks as a program may have, all on one pair of qubits; one block more.
fn many(rt: &impl Print) -> Result<()> {
    let blocks = same_blocks();
    blocks_case(rt, &blocks)?;
    blocks_case(rt, &[1u8; 130])
}

// Each refusal, and which of two comes first.
fn refused(rt: &impl Print) -> Result<()> {
    blocks_case(rt, &[0, 1, 2])?;
    blocks_case(rt, &[0, 32])?;
    blocks_case(rt, &[0, 1, 5, 5])?;
    blocks_case(rt, &[5, 5, 32])?;
    two_bytes_case(rt, &[0, 1, 2, 3])?;
    two_bytes_case(rt, &[0, 1, 2, 3, 4, 5])?;
    two_bytes_case(rt, &[0, 1, 2, 3, 5, 5])
}

pub fn cases(rt: &impl Print) -> Result<()> {
    few(rt)?;
    many(rt)?;
    refused(rt)
}
