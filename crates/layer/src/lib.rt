// The layers of a program's blocks: refusals 24, 25 and 6. The contracts cite specs/.

#![tactic(auto)]

ghost use Rattle.std.specs.Prelude.{◌≡◌, ◌+◌, max, ◌<◌, ◌≤◌, length, get_or, set};
ghost use Rattle.file.specs.File.{written};
ghost use Rattle.refusal.specs.Refusal.{numbered};
ghost use Rattle.block.specs.Block.{most_blocks, qubits, block_count, program_refusal};
ghost use Rattle.layer.specs.Promise.{layer_bytes, layer_count, LayerPromise};

use refusal::Refusal;

// The first layer in which qubits x and y are both free, where `free` has the first one for each qubit. They are free from the next layer on then.
// Wrong, and refused: the first qubit looked at alone; the second one left free; a qubit that is free one layer later.
fn take_layer(free: &mut [u8; block::QUBITS as usize], x: u8, y: u8) -> u8
    requires { (x < qubits) × (y < qubits) × (max (get_or free.old x 0) (get_or free.old y 0) < most_blocks) }
    ensures { (result ≡ max (get_or free.old x 0) (get_or free.old y 0)) × (free.new ≡ set (set free.old x (result + 1)) y (result + 1)) }
{
    let layer = free[x as usize].max(free[y as usize]);
    free[x as usize] = layer + 1;
    free[y as usize] = layer + 1;
    layer
}

// The layers of a program's blocks, at the front of `out`; how many there are.
// Wrong, and refused: the highest layer in place of the number of layers; layers from 1.
fn write_layers(bytes: &[u8], out: &mut [u8]) -> u8
    requires { (program_refusal 2 bytes.now ≡ 0) × (block_count 2 bytes.now ≤ length out.old) }
    ensures { (result ≡ layer_count bytes.now) × (out.new ≡ written out.old (layer_bytes bytes.now)) }
{
    let mut free = [0u8; block::QUBITS as usize];
    let mut layers = 0u8;
    for n in 0..bytes.len() / 2 {
        let layer = take_layer(&mut free, bytes[2 * n], bytes[2 * n + 1]);
        layers = layers.max(layer + 1);
        out[n] = layer;
    }
    layers
}

// The layers of a program's blocks, one byte a block, at the front of `out`.
// Wrong, and refused: 24 for every refusal of a program; a buffer of a byte a qubit asked for.
pub fn blocks_to_layers(bytes: &[u8], out: &mut [u8]) -> Result<u8, Refusal>
    ensures { LayerPromise bytes.now out.old out.new (numbered result) }
{
    block::check_program(bytes, 2)?;
    if out.len() < bytes.len() / 2 {
        return Err(Refusal::Buffer);
    }
    Ok(write_layers(bytes, out))
}
