// What holds of all files.
ghost use Rattle.std.specs.Prelude.{◌≡◌};
ghost use Rattle.swapfile.specs.Theorems.{ReadsBack, NoOther, WritesBytes};
ghost use Rattle.swapfile.specs.Worked.{worked_bytes, Worked};

// Decoding undoes encoding, encoding undoes decoding, and what is encoded are bytes.
pub fn round_trip()
    ensures back { ReadsBack }
    ensures only { NoOther }
    ensures bytes { WritesBytes }
    ensures worked { Worked }
{}

// The bytes of the worked file.
pub fn worked_file() -> [u8; 40]
    ensures { result ≡ worked_bytes }
{
    *b"\x01\x00\x01\x00\x01\x00\x01\x00\x10\x00\x16\x00\x1e\x00\x26\x00\x01\x02\x00\x02\x01\x00\x01\x02\x00\x02\x01\x00\x02\x00\x01\x02\x00\x02\x01\x00\x01\x00\x01\x00"
}
