//! The pieces of a journal in a server's folder, as a writer.
ghost use Rattle.std.specs.Prelude.{◌≡◌, ◌≤◌, None, IfSome, MatchBool, Err, true, false, ◌&&◌};
ghost use Rattle.folder_core.specs.Serving.{begun, serving};
ghost use Rattle.folder_core.specs.Calls.{Moves, MovesOnOk, Tells, Puts, MayRemovePiece, without_piece, without_dump};
ghost use Rattle.data_core.specs.Written.{BeginsAt, text_written};
ghost use Rattle.data_core.specs.Tending.{IsDumpOfFront, IsTimeToPut, IsTimeToBegin, is_put, SettlesPut};
ghost use Rattle.data_core.specs.declared.fault.TendFault.TheVariants as faults;

use crate::fault::TendFault;
use crate::place::Place;
use base_core::{Broken, Resume, Sink};
use folder_core::{Dumping, Errand, Folder, NamesSynced, Synced, Written};
use journal_core::Errands;
use std::marker::{Model, PhantomData};

/// The pieces of a server's journal, in its folder. Contracts see the folder, how many changes were told to be on
/// the disk since the writing began, and whether a write failed.
#[derive(Drop)]
pub struct Pieces<D: Dumping, F: Folder<D> + Drop> {
    folder: F,
    place: Place,
    failed: bool,
    dumping: PhantomData<D>,
}

impl<D: Dumping, F: Folder<D> + Drop> Model for Pieces<D, F> {
    ghost use Rattle.std.specs.Prelude.{IfSome};
    ghost use Rattle.data_core.specs.Written.{PiecesState, IsAt};

    ghost Value = { PiecesState F };

    ghost view = { λ p. record {
      folder = p.folder;
      told = p.place.told;
      failed = p.failed;
    } };

    ghost invariant = { λ p. IfSome (F.state p.folder) (IsAt p.place) };
}

impl<D: Dumping, F: Folder<D> + Drop> Pieces<D, F> {
    /// The journal goes on here, where a start has left the folder: behind `at` changes, in a piece of its own. The
    /// newest dump is of `base` changes, 0 without one, and resumes with the piece `resumes`.
    pub fn new(folder: F, at: u64, base: u64, resumes: u64) -> Pieces<D, F>
        requires { IfSome (F.state folder) (BeginsAt at base resumes) }
        ensures { result ≡ record { folder = folder; told = 0; failed = false } }
    {
        let place = Place {
            first: at,
            base,
            resumes,
            told: 0,
            put: None,
            is_in_line: false,
        };
        Pieces {
            folder,
            place,
            failed: false,
            dumping: PhantomData,
        }
    }

    /// Learns what was synced, and says how many changes are on the disk.
    pub fn tell(&mut self, synced: Synced) -> u64
        ensures count { result ≡ F.told_by self.old.folder synced }
        ensures moves { Moves (Tells result) (F.state self.old.folder) (F.state self.new.folder) }
        ensures text { text_written (F.state self.new.folder)
            ≡ text_written (F.state self.old.folder) }
        ensures same { self.new ≡ record self.old { folder = self.new.folder; told = result } }
    {
        let count = self.folder.tell(synced);
        self.place.told = count;
        count
    }

    /// Gives the file the name of the dump of this point: its lines are a dump of what the first so many
    /// changes leave. `Early` where the changes were not told to be on the disk, the piece that is written to
    /// begins behind them, the newest dump is of as many or more, or one is under way.
    pub fn put(&mut self, point: u64, dump: Written) -> Result<(), TendFault>
        requires { IfSome (F.state self.old.folder) (IsDumpOfFront D.is_dump point (F.lines_of dump)) }
        ensures moves { MovesOnOk (Puts point (F.lines_of dump)) result
            (F.state self.old.folder) (F.state self.new.folder) }
        ensures early { result ≡ Err faults.Early → IfSome (F.state self.old.folder)
            (λ s. ¬ IsTimeToPut self.old.told point s) }
        ensures broken { result ≡ Err faults.Broken → F.failed self.new.folder ≡ true }
        ensures text { text_written (F.state self.new.folder)
            ≡ text_written (F.state self.old.folder) }
        ensures same { self.new ≡ record self.old { folder = self.new.folder } }
    {
        let place = &self.place;
        let is_newer = place.base < point && place.first <= point;
        if place.put.is_some() || !is_newer || place.told < point {
            return Err(TendFault::Early);
        }
        let Ok(()) = self.folder.put(point, dump) else {
            return Err(TendFault::Broken);
        };
        self.place.put = Some(point);
        Ok(())
    }

    /// Learns that names were synced, and says whether the dump that was put is the newest from now on: its name
    /// is among them.
    pub fn settle(&mut self, synced: NamesSynced) -> bool
        ensures time { IfSome (F.state self.old.folder)
            (λ s. result ≡ (is_put s.phase && F.are_now self.old.folder synced)) }
        ensures moves { MatchBool result
            (Moves SettlesPut (F.state self.old.folder) (F.state self.new.folder))
            (F.state self.new.folder ≡ F.state self.old.folder) }
        ensures text { text_written (F.state self.new.folder)
            ≡ text_written (F.state self.old.folder) }
        ensures same { self.new ≡ record self.old { folder = self.new.folder } }
    {
        let Some(point) = self.place.put else {
            return false;
        };
        if !self.folder.tell_names(synced) {
            return false;
        }
        self.folder.settle(point);
        self.place.base = point;
        self.place.resumes = self.place.first;
        self.place.put = None;
        true
    }

    /// From now on the journal goes on in a piece of its own. `Early` where no change of this piece was told to be
    /// on the disk, a part of a line stands at its end, or a dump is under way.
    pub fn begin_piece(&mut self) -> Result<(), TendFault>
        ensures moves { MovesOnOk (λ s t. t ≡ begun s) result
            (F.state self.old.folder) (F.state self.new.folder) }
        ensures early { result ≡ Err faults.Early → IfSome (F.state self.old.folder)
            (λ s. ¬ IsTimeToBegin self.old.told s) }
        ensures broken { result ≡ Err faults.Broken → F.failed self.new.folder ≡ true }
        ensures text { text_written (F.state self.new.folder)
            ≡ text_written (F.state self.old.folder) }
        ensures same { self.new ≡ record self.old { folder = self.new.folder } }
    {
        let place = &self.place;
        if place.put.is_some() || place.told <= place.first || place.is_in_line {
            return Err(TendFault::Early);
        }
        let Ok(first) = self.folder.begin_piece() else {
            return Err(TendFault::Broken);
        };
        self.place.first = first;
        Ok(())
    }

    /// Removes a piece that is behind the newest dump. `Early` where that may need it.
    pub fn remove_piece(&mut self, point: u64) -> Result<(), TendFault>
        ensures moves { MovesOnOk (λ s t. t ≡ without_piece point s) result
            (F.state self.old.folder) (F.state self.new.folder) }
        ensures early { result ≡ Err faults.Early → IfSome (F.state self.old.folder)
            (λ s. s.resumes ≤ point) }
        ensures broken { result ≡ Err faults.Broken → F.failed self.new.folder ≡ true }
        ensures text { text_written (F.state self.new.folder)
            ≡ text_written (F.state self.old.folder) }
        ensures same { self.new ≡ record self.old { folder = self.new.folder } }
    {
        if point >= self.place.resumes {
            return Err(TendFault::Early);
        }
        let Ok(()) = self.folder.remove_piece(point) else {
            return Err(TendFault::Broken);
        };
        Ok(())
    }

    /// Removes a dump that is older than the newest. `Early` where it is not.
    pub fn remove_dump(&mut self, point: u64) -> Result<(), TendFault>
        ensures moves { MovesOnOk (λ s t. t ≡ without_dump point s) result
            (F.state self.old.folder) (F.state self.new.folder) }
        ensures early { result ≡ Err faults.Early → IfSome (F.state self.old.folder)
            (λ s. s.base ≤ point) }
        ensures broken { result ≡ Err faults.Broken → F.failed self.new.folder ≡ true }
        ensures text { text_written (F.state self.new.folder)
            ≡ text_written (F.state self.old.folder) }
        ensures same { self.new ≡ record self.old { folder = self.new.folder } }
    {
        if point >= self.place.base {
            return Err(TendFault::Early);
        }
        let Ok(()) = self.folder.remove_dump(point) else {
            return Err(TendFault::Broken);
        };
        Ok(())
    }
}

impl<D: Dumping, F: Folder<D> + Drop> Sink for Pieces<D, F> {
    ghost use Rattle.std.specs.Prelude.{true};
    ghost use Rattle.std.proofs.Common.{refl};
    ghost use Rattle.data_core.specs.Written.{text_written};

    ghost failed = { λ p. p.failed };

    ghost taken = { λ p. text_written (F.state p.folder) };

    ghost handed_on = { λ p. text_written (F.state p.folder) };

    ghost flushed = { λ _. true };

    fn write(&mut self, bytes: &[u8]) -> Result<usize, Broken> {
        match self.folder.write(bytes) {
            Ok(count) => {
                if count > 0 {
                    self.place.is_in_line = bytes[count - 1] != b'\n';
                }
                Ok(count)
            }
            Err(Broken) => {
                self.failed = true;
                Err(Broken)
            }
        }
    }

    fn flush(&mut self) -> Result<(), Broken> {
        Ok(())
    }

    ghost flushed_hands_on = { λ _ _. refl };
}

impl<D: Dumping, F: Folder<D> + Drop> Resume for Pieces<D, F> {
    fn resume(&mut self) {
        self.failed = false;
    }
}

impl<D: Dumping, F: Folder<D> + Drop> Errands for Pieces<D, F> {
    ghost use Rattle.data_core.specs.Errands.{MayRun, text_known, any_where_unknown};

    ghost may_run = { MayRun D.is_dump F.lines_of };

    ghost knows = { F.knows };

    fn run(&mut self, errand: Errand) -> bool {
        match errand {
            Errand::Put {
                synced,
                point,
                dump,
            } => {
                self.tell(synced);
                self.put(point, dump).is_ok()
            }
            Errand::Settle(synced) => self.settle(synced) && self.begin_piece().is_ok(),
            Errand::RemovePiece(point) => self.remove_piece(point).is_ok(),
            Errand::RemoveDump(point) => self.remove_dump(point).is_ok(),
        }
    }

    ghost unknown = { λ p. text_known (F.state p.folder) F.knows (F.known p.folder) };

    ghost unasked = { λ errand. any_where_unknown D.is_dump F.lines_of errand };
}
