// The program's transcript.
ghost use Rattle.std.specs.Prelude.{◌≡◌, length};
ghost use Rattle.splice.specs.Splice.{spliced};
ghost use Rattle.console.specs.Transcript.{transcript_of};

// Writes what the program prints for an input over the start of a buffer that is long enough for every input, and gives its length.
#[unsafe(no_mangle)]
pub extern "C" fn rimevelvet_transcript(
    input: &[u8],
    out: &mut [u8; console::LONGEST_TRANSCRIPT],
) -> usize
    ensures { (result ≡ length (transcript_of input.now))
        × (out.new ≡ spliced out.old 0 (transcript_of input.now)) }
{
    console::transcript(input, out)
}
