// What holds of the files of packs: each law is what a function of its name ensures. The functions do nothing.
ghost use Rattle.disk_image.specs.Laws.{ReadsBack, WritesBack, IsAccepted, ReadsTwoBack, WritesTwoBack, AcceptsTwo};

/// A file is that of one pack alone: `decode_pack` gives back what `encode_pack` wrote.
pub fn reads_back()
    ensures { ReadsBack }
{}

/// A pack has one file alone: `encode_pack` writes each file that `decode_pack` accepted as it was.
pub fn writes_back()
    ensures { WritesBack }
{}

/// The file of a pack has a pack's length: `decode_pack` refuses nothing that `encode_pack` wrote.
pub fn is_accepted()
    ensures { IsAccepted }
{}

/// Two files are those of one pack alone: `decode_two` gives back what `encode_two` wrote.
pub fn reads_two_back()
    ensures { ReadsTwoBack }
{}

/// A pack of two drives has two files alone: `encode_two` writes each pair of files that `decode_two` accepted as it was.
pub fn writes_two_back()
    ensures { WritesTwoBack }
{}

/// The files of a pack of two drives have one length, a drive's: `decode_two` refuses nothing that `encode_two` wrote.
pub fn accepts_two()
    ensures { AcceptsTwo }
{}
