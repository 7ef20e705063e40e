//! Direct transfers, by their first byte.

ghost use Rattle.std.specs.Prelude.{◌≡◌};
ghost use Rattle.nc_decode.specs.Transfers.{may_transfer};

/// Whether a direct jump, call or branch may begin with this byte: 0F, 70 to 7F, or E0 to EB. By `law_of_fronts` none begins
/// with any other byte.
///
/// It saves a caller that reads many instructions from decoding those that can't be direct transfers. Other instructions
/// may begin with these bytes too. It has no branch and no look-up, so that vectors test many bytes at once.
#[inline(always)]
pub fn may_transfer(byte: u8) -> bool
    ensures { result ≡ may_transfer byte }
{
    (byte == 0x0F) | ((0x70 <= byte) & (byte <= 0x7F)) | ((0xE0 <= byte) & (byte <= 0xEB))
}
