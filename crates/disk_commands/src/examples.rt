//! The examples and the exit statuses at the end of help.
use crate::commands::Verb;

/// The end of a help text: examples, and the exit statuses.
macro_rules! examples {
    ($lines:literal) => {
        concat!(
            "Examples:\n",
            $lines,
            "\nExit status: 0 done, 1 the disk or the drive refused, 2 not a disk image, 3 a host file or memory,\n4 some of several images are refused, unsound or not images, 64 the command line"
        )
    };
}

/// The end of the help of all commands.
pub const EXAMPLES: &str = examples!(
    "  disk1541 list game.d64                  what is on the disk\n  disk1541 get game.d64 'LOADER*' -o loader.prg\n  disk1541 check -r disks/                all images in a folder\n  disk1541 help put                       the words of one command\n  disk1541 help names                     how names of files are written\n"
);

/// The end of the help of a command.
pub fn examples_of(verb: Verb) -> &'static str {
    match verb {
        Verb::List => examples!(
            "  disk1541 list game.d64\n  disk1541 list game.d64 --only 'A*' --charset lower\n  disk1541 list game.d64 --blocks    where each file lies\n  disk1541 list -r disks/ --json\n  disk1541 list -r disks/ --csv > files.csv\n"
        ),
        Verb::Find => examples!(
            "  disk1541 find 'HISCORE*' *.d64 *.d81\n  disk1541 find -r 'HISCORE*' disks/\n"
        ),
        Verb::Get => examples!(
            "  disk1541 get game.d64 LOADER -o loader.prg\n  disk1541 get game.d64 '{c1}*' > first\n  disk1541 get game.d64 LOADER -o loader.p00    with PC64's head, which has the name\n  disk1541 get bad.d64 --salvage 'LEVEL*' -o level.bin\n  disk1541 get geos.d64 LETTER --cvt -o letter.cvt\n  disk1541 get odd.d64 --exact 'ST*R1' -o star.prg\n"
        ),
        Verb::GetAll => examples!(
            "  disk1541 get-all game.d64 files\n  disk1541 get-all game.d64 files 'LEVEL*' --type seq\n"
        ),
        Verb::Show => examples!(
            "  disk1541 show game.d64 LOADER\n  disk1541 show game.d64 SCORES --hex\n  disk1541 show game.d64 README --text --charset lower\n"
        ),
        Verb::Info => examples!("  disk1541 info game.d64\n  disk1541 info -r disks/ --json\n"),
        Verb::Map => examples!(
            "  disk1541 map game.d64\n  disk1541 map game.d64 --files\n  disk1541 map game.d64 --svg game.svg\n  disk1541 map game.d64 --json\n"
        ),
        Verb::Track => examples!("  disk1541 track game.g64 18\n  disk1541 track game.g64 17.5\n"),
        Verb::Sector => examples!("  disk1541 sector game.d64 18 0\n"),
        Verb::Check => examples!(
            "  disk1541 check game.d64\n  disk1541 check -r disks/\n  disk1541 check --all bad.d64    every fault, and the files that have it\n"
        ),
        Verb::Hash => examples!("  disk1541 hash -r disks/ | sort    equal disks stand together\n"),
        Verb::Diff => examples!(
            "  disk1541 diff old.d64 new.d64\n  disk1541 diff game.d64 game.g64    status 1 if something differs\n"
        ),
        Verb::Describe => examples!(
            "  disk1541 describe game.d64 > game.toml\n  disk1541 describe game.d64 --folder files > game.toml\n"
        ),
        Verb::Build => examples!(
            "  disk1541 build game.toml game.d64\n  disk1541 build game.toml game.d64 --replace\n"
        ),
        Verb::New => examples!(
            "  disk1541 new work.d64 --title WORK --id 64\n  disk1541 new work.g64 --title WORK --id 64\n"
        ),
        Verb::Convert => examples!(
            "  disk1541 convert game.d64 game.g64\n  disk1541 convert games.d81 games.d64    its files, on a new disk\n  disk1541 convert game.d64 long.d64 --tracks 40\n"
        ),
        Verb::Put => examples!(
            "  disk1541 put work.d64 loader.prg levels.seq\n  disk1541 put work.d64 out.bin --name LOADER --replace\n"
        ),
        Verb::Transfer => examples!(
            "  disk1541 transfer old.d64 work.d64\n  disk1541 transfer games.d81 work.d64 'LEVEL*'\n  disk1541 transfer tape.t64 work.d64 --dry-run    what would be transferred\n  disk1541 transfer tape.t64 work.d64 --dry-run --json\n"
        ),
        Verb::Copy => examples!("  disk1541 copy work.d64 LOADER BACKUP\n"),
        Verb::Rename => examples!(
            "  disk1541 rename work.d64 LOADER START\n  disk1541 rename odd.d64 --exact 'ST*R1' STAR1\n  disk1541 rename odd.d64 --slot 3 START\n"
        ),
        Verb::Delete => examples!(
            "  disk1541 delete work.d64 BACKUP 'OLD*'\n  disk1541 delete --force bad.d64 'LEVEL*'    remove files at fault, if `validate` refuses the disk\n  disk1541 delete *.d64 --only 'OLD*' --dry-run    what would go from several images\n"
        ),
        Verb::Undelete => examples!(
            "  disk1541 list --deleted work.d64    which files were deleted\n  disk1541 undelete work.d64 BACKUP\n  disk1541 undelete work.d64 '*'    all of them, or none\n"
        ),
        Verb::Lock => examples!(
            "  disk1541 lock work.d64 START 'LEVEL*'\n  disk1541 lock *.d64 --only 'LEVEL*'    files of several images\n"
        ),
        Verb::Unlock => examples!("  disk1541 unlock work.d64 '*'\n"),
        Verb::Place => examples!(
            "  disk1541 place demo.d64 LOADER --track 17 --interleave 4\n  disk1541 place demo.d64 'PART*' --interleave 4 --dry-run    where they would lie\n"
        ),
        Verb::Art => examples!(
            "  disk1541 art work.d64 '----------------'\n  disk1541 art work.d64 'MY GAMES' --at 1 --blocks 64\n"
        ),
        Verb::Move => examples!(
            "  disk1541 move work.d64 START --to 1\n  disk1541 move work.d64 --slot 3 --to 2 --dry-run\n"
        ),
        Verb::Sort => examples!("  disk1541 sort work.d64\n  disk1541 sort work.d64 --by size\n"),
        Verb::Title => examples!(
            "  disk1541 title work.d64 'MY GAME'\n  disk1541 title work.d64 'MY GAME' --id 64\n"
        ),
        Verb::Errors => {
            examples!(
                "  disk1541 errors game.d64\n  disk1541 errors game.d64 --add\n  disk1541 errors game.d64 --drop\n"
            )
        }
        Verb::Retype => examples!(
            "  disk1541 retype work.d64 NOTES seq\n  disk1541 retype work.d64 --slot 3 usr\n"
        ),
        Verb::Run => examples!(
            "  disk1541 run work.d64 changes.txt    lines as: rename LOADER START\n  disk1541 run work.d64 changes.txt --dry-run    what would change\n"
        ),
        Verb::Validate => examples!(
            "  disk1541 validate work.d64 --dry-run    what would go\n  disk1541 validate work.d64\n  disk1541 validate *.d64 --json\n  disk1541 validate -r disks/ --dry-run\n"
        ),
    }
}
