// A field file: bytes that pass every case, with their settings and their numbering.
ghost use Rattle.std.specs.Prelude.{◌≡◌, Ok};
ghost use Rattle.checking.specs.Cases.{file_checked, file_code, file_smax};
ghost use Rattle.loading.specs.Kept.{Bytes, FilesSettings};

use crate::counts::Counts;
use crate::items::fill_parts;
use checking::{check_file, settings_in};
use field::{Act, Link, Loss, Row, Rules, Settings};
use filed::{FileNumbering, Filed};
use numbering::{Circular, Differentiated, Free, Linear};
use records::Record;
use refusal::{FieldFault, RunFault};
use sections::cut;

// A field file under a numbering, which is its own.
#[derive(Drop)]
pub struct FileUnder<'a, N: Filed> {
    file: &'a [u8],
    numbering: N,
    settings: Settings,
    // Inside a struct a slice's bytes are numbers that nothing bounds.
    ghost bytes: { Bytes file.now },
    ghost passes: { file_checked file.now ≡ Ok tt },
    ghost has: { FilesSettings file.now settings },
    ghost coded: { N.Filed.coded numbering ≡ file_code file.now },
    ghost topped: { N.Filed.top numbering ≡ file_smax file.now },
}

// A field file under one of the four, which only its bytes tell.
#[derive(Drop)]
pub enum FieldFile<'a> {
    Free(FileUnder<'a, Free>),
    Linear(FileUnder<'a, Linear>),
    Circular(FileUnder<'a, Circular>),
    Differentiated(FileUnder<'a, Differentiated>),
}

impl<'a> FieldFile<'a> {
    ghost use Rattle.loading.specs.Loads.{Checks};

    // The whole file is checked, before anything is filled from it.
    #[tactic(auto, using(checking::proofs::Passes::settings_kept))]
    pub fn new(file: &'a [u8]) -> Result<FieldFile<'a>, FieldFault>
        ensures { Checks file.now result }
    {
        check_file(file)?;
        let settings = settings_in(file)?;
        let head = Record { file, place: 0 };
        let numbering = FileNumbering::new(head.byte(1), head.byte(5)).ok_or(
            FieldFault::BadSetting,
        )?;
        Ok(match numbering {
            FileNumbering::Free(numbering) => FieldFile::Free(FileUnder {
                file,
                numbering,
                settings,
            }),
            FileNumbering::Linear(numbering) => FieldFile::Linear(FileUnder {
                file,
                numbering,
                settings,
            }),
            FileNumbering::Circular(numbering) => FieldFile::Circular(FileUnder {
                file,
                numbering,
                settings,
            }),
            FileNumbering::Differentiated(numbering) => FieldFile::Differentiated(FileUnder {
                file,
                numbering,
                settings,
            }),
        })
    }
}

impl<N: Filed> FileUnder<'_, N> {
    ghost use Rattle.sections.specs.Parts.{row_records, link_records, loss_records, act_records};
    ghost use Rattle.loading.specs.Loads.{counted, lent, roomy, if_filled, rows_filled, links_filled, losses_filled, acts_filled, Returned};

    // The numbering and the settings.
    pub fn rules(&self) -> Rules<'_, N>
        ensures numbering { result.numbering.now ≡ self.now.numbering }
        ensures settings { result.settings ≡ self.now.settings }
    {
        Rules {
            numbering: &self.numbering,
            settings: self.settings,
        }
    }

    // How many rows, links, losses and acts there are.
    pub fn counts(&self) -> Counts
        ensures { result ≡ counted self.now.file.now }
    {
        Counts::from(cut(self.file))
    }

    // Fills the front of the buffers with rows, links, losses and acts, and answers how many they are.
    pub fn fill(
        &self,
        rows: &mut [Row<N::Number>],
        links: &mut [Link],
        losses: &mut [Loss],
        acts: &mut [Act<N::Number>],
    ) -> Result<Counts, RunFault>
        ensures value { result ≡ roomy (counted self.now.file.now) (lent rows.old links.old losses.old acts.old) }
        ensures rows { rows.new ≡ if_filled result (rows_filled N.Number.NumberKind.of (row_records self.now.file.now) rows.old) rows.old }
        ensures links { links.new ≡ if_filled result (links_filled (link_records self.now.file.now) links.old) links.old }
        ensures losses { losses.new ≡ if_filled result (losses_filled (loss_records self.now.file.now) losses.old) losses.old }
        ensures acts { acts.new ≡ if_filled result (acts_filled N.Number.NumberKind.of (act_records self.now.file.now) acts.old) acts.old }
        ensures back { Returned self.now.file.now N.Number.NumberKind.worth (N.Filed.coded self.now.numbering) (N.Filed.top self.now.numbering) self.now.settings rows.new links.new losses.new acts.new result }
    {
        let parts = cut(self.file);
        let room = Counts {
            rows: rows.len(),
            links: links.len(),
            losses: losses.len(),
            acts: acts.len(),
        };
        let counts = Counts::from(parts).fit(room)?;
        fill_parts(parts, rows, links, losses, acts);
        Ok(counts)
    }
}
