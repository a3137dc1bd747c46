// Table B-1 and the display function by value, through the C ABI on bare numbers: for the comparison by running. Exported C names that stay.
#![tactic(auto)]

ghost use Rattle.std.specs.Prelude.{◌≡◌};
ghost use Rattle.gsdf.specs.Table.{table_b1};
ghost use Rattle.gsdf.specs.DisplayFunction.{luminance_of, index_of, IsIndex, InTable};

use units::{JndIndex, Luminance};

#[unsafe(no_mangle)]
pub extern "C" fn gsdf_table_b1(table: &mut [u32; 1023])
    ensures { table.new ≡ table_b1 }
{
    *table = gsdf::table_b1();
}

#[unsafe(no_mangle)]
pub extern "C" fn gsdf_luminance_of(k: u32) -> u32
    requires { IsIndex k }
    ensures { result ≡ luminance_of k }
{
    gsdf::luminance_of(JndIndex(k)).0
}

#[unsafe(no_mangle)]
pub extern "C" fn gsdf_index_of(l: u32) -> u32
    requires { InTable l }
    ensures { result ≡ index_of l }
{
    gsdf::index_of(Luminance(l)).0
}
