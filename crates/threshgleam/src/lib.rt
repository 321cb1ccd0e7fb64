//! The C ABI of the libraries: one exported function for each, with its own contract, so that the
//! libraries stay free of C names. A slice is a pointer and a length; a struct goes by value; an answer
//! is in numbers.
#![tactic(auto)]

mod set_rules;

ghost use Rattle.std.specs.Prelude.{◌≡◌};
ghost use Rattle.std.specs.Int.Count.{count_trailing_zeros};
ghost use Rattle.ram.specs.Ram.{bytes_of, loaded, stored, storing};
ghost use Rattle.config.specs.Config.{
  reason_of,
  is_valid,
  within_limits,
  num_sets,
  addr_tag,
  addr_index,
  addr_offset,
  line_base,
  search_cycles,
  transfer_cycles,
  stock,
};

use config::CacheConfig;
use ram::{Loaded, Stored};

// ---- RAM

#[unsafe(no_mangle)]
pub extern "C" fn tg_ram_load8(ram: &[u8], addr: u32) -> Loaded
    ensures { result ≡ loaded ram.now addr }
{
    ram::load8(ram, addr).into()
}

#[unsafe(no_mangle)]
pub extern "C" fn tg_ram_store8(ram: &mut [u8], addr: u32, value: u8) -> Stored
    ensures { storing result ram.new ≡ stored ram.old addr (bytes_of value) 1 }
{
    ram::store8(ram, addr, value).into()
}

#[unsafe(no_mangle)]
pub extern "C" fn tg_ram_store16(ram: &mut [u8], addr: u32, value: u16) -> Stored
    ensures { storing result ram.new ≡ stored ram.old addr (bytes_of value) 2 }
{
    ram::store16(ram, addr, value).into()
}

#[unsafe(no_mangle)]
pub extern "C" fn tg_ram_store32(ram: &mut [u8], addr: u32, value: u32) -> Stored
    ensures { storing result ram.new ≡ stored ram.old addr (bytes_of value) 4 }
{
    ram::store32(ram, addr, value).into()
}

// ---- configuration

#[unsafe(no_mangle)]
pub extern "C" fn tg_config_default() -> CacheConfig
    ensures { result ≡ stock }
{
    CacheConfig::default()
}

#[unsafe(no_mangle)]
pub extern "C" fn tg_config_validate(c: CacheConfig) -> u8
    ensures { result ≡ reason_of c }
{
    c.validate().err().map_or(0, |reason| reason.number())
}

#[unsafe(no_mangle)]
pub extern "C" fn tg_config_is_valid_config(c: CacheConfig) -> bool
    ensures { result ≡ is_valid c }
{
    c.is_valid_config()
}

#[unsafe(no_mangle)]
pub extern "C" fn tg_config_within_limits(c: CacheConfig) -> bool
    ensures { result ≡ within_limits c }
{
    c.within_limits()
}

#[unsafe(no_mangle)]
pub extern "C" fn tg_config_num_sets(c: CacheConfig) -> u64
    ensures { result ≡ num_sets c }
{
    c.num_sets()
}

#[unsafe(no_mangle)]
pub extern "C" fn tg_config_offset_bits(c: CacheConfig) -> u32
    ensures { result ≡ count_trailing_zeros 64 c.line_size }
{
    c.offset_bits()
}

#[unsafe(no_mangle)]
pub extern "C" fn tg_config_index_bits(c: CacheConfig) -> u32
    ensures { result ≡ count_trailing_zeros 64 (num_sets c) }
{
    c.index_bits()
}

#[unsafe(no_mangle)]
pub extern "C" fn tg_config_addr_tag(c: CacheConfig, addr: u32) -> u32
    ensures { result ≡ addr_tag c addr }
{
    c.addr_tag(addr)
}

#[unsafe(no_mangle)]
pub extern "C" fn tg_config_addr_index(c: CacheConfig, addr: u32) -> usize
    ensures { result ≡ addr_index c addr }
{
    c.addr_index(addr)
}

#[unsafe(no_mangle)]
pub extern "C" fn tg_config_addr_offset(c: CacheConfig, addr: u32) -> usize
    ensures { result ≡ addr_offset c addr }
{
    c.addr_offset(addr)
}

#[unsafe(no_mangle)]
pub extern "C" fn tg_config_line_base(c: CacheConfig, addr: u32) -> u32
    ensures { result ≡ line_base c addr }
{
    c.line_base(addr)
}

#[unsafe(no_mangle)]
pub extern "C" fn tg_config_tag_search_cycles(c: CacheConfig) -> u64
    ensures { result ≡ search_cycles c }
{
    c.tag_search_cycles()
}

#[unsafe(no_mangle)]
pub extern "C" fn tg_config_line_transfer_cycles(c: CacheConfig) -> u64
    ensures { result ≡ transfer_cycles c }
{
    c.line_transfer_cycles()
}
