// The file that the runner program reads: mode byte, fuel in 4 bytes, sheet length in 2, sheet, store length in 2, store.
ghost use Rattle.std.specs.Prelude.{◌≡◌, ◌↔◌, IsTrue, IsNone, IfSome};
ghost use Rattle.report.specs.File.{mode_in, fuel_in, sheet_in, store_in, is_cut};

/// The run that a file asks for.
#[derive(Clone, Copy)]
pub struct RunFile<'a> {
    pub mode: u8,
    pub fuel: u32,
    pub sheet: &'a [u8],
    pub store: &'a [u8],
}

impl<'a> RunFile<'a> {
    /// Takes a file apart, unless it is cut before the store's length is complete. A store that is cut or followed by bytes counts as none.
    #[tactic(auto, unfolding(crate::specs::File::is_cut, crate::specs::File::sheet_in))]
    pub fn parse(file: &'a [u8]) -> Option<RunFile<'a>>
        ensures cut { IsNone result ↔ IsTrue (is_cut file.now) }
        ensures mode { IfSome result (λ run. run.mode ≡ mode_in file.now) }
        ensures fuel { IfSome result (λ run. run.fuel ≡ fuel_in file.now) }
        ensures sheet { IfSome result (λ run. run.sheet.now ≡ sheet_in file.now) }
        ensures store { IfSome result (λ run. run.store.now ≡ store_in file.now) }
    {
        let (&[mode, f0, f1, f2, f3, s0, s1], rest) = file.split_first_chunk::<7>()?;
        let fuel = u32::from_le_bytes([f0, f1, f2, f3]);
        let sheet_length = u16::from_le_bytes([s0, s1]);
        let (sheet, rest) = rest.split_at_checked(usize::from(sheet_length))?;
        let (&store_length, rest) = rest.split_first_chunk::<2>()?;
        let store = if rest.len() == usize::from(u16::from_le_bytes(store_length)) {
            rest
        } else {
            &[]
        };
        Some(RunFile {
            mode,
            fuel,
            sheet,
            store,
        })
    }
}
