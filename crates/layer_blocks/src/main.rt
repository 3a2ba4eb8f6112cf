// Gives the blocks of a program their layers: the blocks on standard input, two bytes each; how many layers there are and the layer of each block on
// standard output.

#![tactic(auto)]

ghost use Rattle.std.specs.Prelude.{◌≡◌};
ghost use Rattle.layer_blocks.specs.Output.{layer_text};

use line::Word;
use std::io::Result;
use text::Writer;

// The text for a program, written in `out`.
// Wrong, and refused: the layers over their number; a refusal one byte late.
fn answer<'a>(blocks: &[u8], out: &'a mut [u8; 512]) -> &'a [u8]
    ensures { result.now ≡ layer_text blocks.now }
{
    let mut layers = [0u8; block::MOST_BLOCKS];
    match layer::blocks_to_layers(blocks, &mut layers) {
        Ok(count) => {
            let mut w = Writer::new(out);
            line::write_line(Word::Layers, &[count], &mut w);
            line::write_line(Word::Layer, &layers[..blocks.len() / 2], &mut w);
            w.written()
        }
        Err(refusal) => line::refused(refusal.number(), out),
    }
}

// A buffer larger than a program, so that whatever is longer is seen to be.
fn main(rt: HostRuntime) -> Result<()> {
    let mut blocks = io::buffer();
    let length = streams::read_full(&mut rt.stdin(), &mut blocks)?;
    let mut text = [0u8; 512];
    rt.write_all(answer(&blocks[..length], &mut text))
}
