// The program `tags`, on slices.
ghost use Rattle.std.specs.Prelude.{◌≡◌, []};
ghost use Rattle.tags_stream.specs.Pieces.{keeping, Feeds, Finishes};

use tags_stream::{Fed, Line};

#[unsafe(no_mangle)]
pub extern "C" fn slc_line_empty() -> Line
    ensures { result ≡ keeping [] }
{
    Line::empty()
}

#[unsafe(no_mangle)]
pub extern "C" fn slc_tags_feed(line: Line, piece: &[u8], out: &mut [u8]) -> Fed
    ensures { Feeds line piece.now out.old result out.new }
{
    tags_stream::feed(line, piece, out)
}

#[unsafe(no_mangle)]
pub extern "C" fn slc_tags_finish(line: Line, out: &mut [u8]) -> usize
    ensures { Finishes line out.old result out.new }
{
    tags_stream::finish(line, out)
}
