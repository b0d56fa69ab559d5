ghost use Rattle.std.specs.Prelude.{◌≡◌, ◌+◌, ◌<◌, ◌≤◌, length};
ghost use Rattle.vdev_map.specs.Numbers.{IsIn, number_of, metaslabs_in};

use zms_units::{MsId, VdevRow};

/// The number of a metaslab in the pool, from 0, in order of vdev and index. Linear in the vdevs.
pub fn number_of(vdevs: &[VdevRow], id: MsId) -> u32
    requires id { IsIn vdevs.now id }
    requires few { metaslabs_in vdevs.now ≤ 1024 }
    ensures number { result ≡ number_of vdevs.now id }
    ensures below { result < metaslabs_in vdevs.now }
    // No two metaslabs have one number.
    ensures one_to_one { (other : MsId) → IsIn vdevs.now other → number_of vdevs.now other ≡ result → other ≡ id }
{
    let mut before = 0;
    for row in &vdevs[..id.vdev as usize] {
        before += u32::from(row.metaslabs);
    }
    before + u32::from(id.index)
}

/// The metaslab of a number. Linear in the vdevs.
pub fn id_of(vdevs: &[VdevRow], number: u32) -> MsId
    requires count { length vdevs.now ≤ 256 }
    requires number { number < metaslabs_in vdevs.now }
    ensures id { IsIn vdevs.now result }
    ensures number { number_of vdevs.now result ≡ number }
{
    let mut rest = number;
    for (vdev, row) in vdevs.iter().enumerate() {
        let metaslabs = u32::from(row.metaslabs);
        if rest < metaslabs {
            return MsId {
                vdev: vdev as u8,
                index: rest as u16,
            };
        }
        rest -= metaslabs;
    }
    unreachable!()
}
