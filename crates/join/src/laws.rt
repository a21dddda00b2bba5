// The theorems of the least extra drives and their sheet.
ghost use Rattle.join.specs.Extra.{ExtraDrives};
ghost use Rattle.join.specs.Laws.{PriceLeast, SheetAgrees, LeastDrivesShow};

// Every sound town has extra drives that make all degrees even, and a sheet that weighs twice their length.
pub fn extra_drives_stands()
    ensures { ExtraDrives }
{}

// The price of a crossing is the least cost of any set of extra drives that leads there.
pub fn price_least_stands()
    ensures { PriceLeast }
{}

// The classes without the depot are a sheet that agrees with the extra drives to the depot.
pub fn sheet_agrees_stands()
    ensures { SheetAgrees }
{}

// Both of every value of `LeastDrives`.
pub fn least_drives_stands()
    ensures { LeastDrivesShow }
{}
