// The laws of the line as a whole.
ghost use Rattle.std.specs.Prelude.{◌≡◌, true};
ghost use Rattle.wire.specs.Laws.{Line};

// True, by what `Line` says of reading and writing for all bytes.
pub fn line_stands() -> bool
    ensures laws { Line }
    ensures said { result ≡ true }
{
    true
}
